// What a frame's call comes to, and how that is written into a lent buffer, from a place on.

ghost use Rattle.std.specs.Prelude.{◌≡◌, ◌+◌, ◌≤◌, length};
ghost use Rattle.rule.specs.Meaning.{RULES};
ghost use Rattle.chain.specs.Links.{most_links};
ghost use Rattle.frame.specs.fields.Answers.{ROOM, answer_bytes, ask_lines};
ghost use Rattle.frame.specs.fields.Put.{PutAt};
ghost use Rattle.desk.specs.told.route.Told.{Few, number_told, told_lines};

use frame::{kept_line, put_line, put_links, put_number};
use sheet::slate::{Head, Said};
use sheet::{Reply, Sheet};
use word::Edition;

// What a frame's call comes to: a number, or what asking replies.
#[derive(Clone, Copy)]
pub enum Told {
    Number(u64),
    Asking(Reply),
}

// The head after a call, and what the call comes to.
#[derive(Clone, Copy)]
pub struct Called {
    pub head: Head,
    pub told: Told,
}

// What a call that answers a number comes to.
pub fn numbered(said: Said) -> Called
    ensures { result ≡ number_told said.number said.head }
{
    Called {
        head: said.head,
        told: Told::Number(said.number),
    }
}

// Writes a number, or a reply.
pub fn put(
    out: &mut [u8],
    at: usize,
    edition: Edition,
    told: Told,
    chain: &[u64; Sheet::LENT],
) -> usize
    requires { (at + ROOM ≤ length out.old) × Few told }
    ensures { PutAt out.old at (answer_bytes (told_lines edition told chain.now)) out.new result }
{
    match told {
        Told::Number(number) => put_number(out, at, number),
        Told::Asking(reply) => put_reply(out, at, edition, reply, chain),
    }
}

// Writes the verdict with the links of its chain, or the refusal.
fn put_reply(
    out: &mut [u8],
    at: usize,
    edition: Edition,
    reply: Reply,
    chain: &[u64; Sheet::LENT],
) -> usize
    requires { (at + ROOM ≤ length out.old) × (reply.links ≤ most_links RULES) }
    ensures { PutAt out.old at (answer_bytes (ask_lines edition reply chain.now)) out.new result }
{
    if reply.number != 0 {
        return put_number(out, at, reply.number);
    }
    let end = put_line(out, at, kept_line(edition, reply.kept));
    put_links(out, end, edition, chain, reply.links)
}
