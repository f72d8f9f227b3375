// From the digits of a line to a frame.
ghost use Rattle.std.specs.Prelude.{◌≡◌, length};
ghost use Rattle.frame.specs.fields.Fields.{BYTE};
ghost use Rattle.frame.specs.route.Reading.{bare, frame_of, numbered};

use crate::Frame;
use crate::frame_numbers::OPENING;
use page::Opening;
use word::Edition;

// The frame that a line is.
pub fn decode(line: &[u8]) -> Frame
    ensures { result ≡ frame_of line.now }
{
    let n = line.len();
    if n < Frame::BYTE {
        return Frame::NoFrame;
    }
    if n == Frame::BYTE {
        return code_alone(line);
    }
    if !digits::hexadecimal::all_digits(line) {
        return Frame::NoFrame;
    }
    let code = digits::hexadecimal::number(line, 0, Frame::BYTE);
    numbered(line, code, crate::frame_numbers::edition_of(code))
}

// The frame of a line that has room for a code alone: most lines, so these are told by their two bytes, without reading a number.
#[tactic(auto, using(crate::proofs::SearchReadingCodeAlone::wanted))]
fn code_alone(line: &[u8]) -> Frame
    requires { length line.now ≡ BYTE }
    ensures { result ≡ frame_of line.now }
{
    let last = line[1];
    if line[0] != b'0' {
        return Frame::NoFrame;
    }
    if last < b'3' {
        return Frame::NoFrame;
    }
    if b'6' < last {
        return Frame::NoFrame;
    }
    let code = last - b'0';
    bare(code as u64)
}

// The frames that are a code and nothing more.
#[tactic(auto, using(crate::proofs::SearchReadingBare::wanted), unfolding(crate::specs::route::Reading::bare))]
fn bare(code: u64) -> Frame
    ensures { result ≡ bare code }
{
    if code == 3 {
        return Frame::Mark;
    }
    if code == 4 {
        return Frame::Back;
    }
    if code == 5 {
        return Frame::Ask;
    }
    if code == 6 {
        return Frame::Forward;
    }
    Frame::NoFrame
}

// The frames of an edition that have numbers after their code.
fn numbered(line: &[u8], code: u64, edition: Edition) -> Frame
    ensures { result ≡ numbered edition code line.now }
{
    let n = line.len();
    if crate::frame_numbers::opens(edition, code, n) {
        return Frame::Open(Opening {
            width: digits::hexadecimal::number(line, Frame::BYTE, OPENING),
            edition,
        });
    }
    if crate::frame_numbers::adds(edition, code, n) {
        return Frame::Add(edition, crate::frame_numbers::rule_of(line, edition));
    }
    Frame::NoFrame
}
