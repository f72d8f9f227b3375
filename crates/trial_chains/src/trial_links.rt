// Lists of links to try: a list changed at one place, a check of it word by word, and counts.

pub mod by_words;
pub mod changed;
pub mod counts;
