// The lines that the trials print: a name, and numbers with their texts.

// How many were compared, and how many differ.
pub fn compared(name: &[u8], all: u64, differ: u64) {
    io::write_all(1, name);
    field(b" ", all);
    field(b" compared, ", differ);
    io::write_all(1, b" differ\n");
}

// Calls by whether they were refused.
pub fn calls(name: &[u8], accepted: u64, refused: u64) {
    io::write_all(1, name);
    field(b" ", accepted);
    field(b" accepted, ", refused);
    io::write_all(1, b" refused\n");
}

// A number after its text.
fn field(text: &[u8], number: u64) {
    io::write_all(1, text);
    io::print_decimal(1, number);
}
