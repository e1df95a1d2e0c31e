// What a call works on, as lines spell it.
use oe_lines::first_word;

/// Bytes or a number, as a line spells them.
#[derive(Clone, Copy)]
pub(crate) struct Spelled<'a> {
    pub(crate) text: &'a str,
}

pub(crate) fn spelling(text: &str) -> Spelled<'_> {
    Spelled { text }
}

/// What a call works on.
#[derive(Clone, Copy)]
pub(crate) struct Setting<'a> {
    /// The peers in the order in which they are dialled.
    pub(crate) peers: &'a [Spelled<'a>],
    pub(crate) input: Spelled<'a>,
    /// How many bytes a read of the connection gives at most.
    pub(crate) piece: Spelled<'a>,
    pub(crate) fails: Fails<'a>,
}

/// Which calls fail.
#[derive(Clone, Copy)]
pub(crate) struct Fails<'a> {
    pub(crate) dial: &'a str,
    pub(crate) link: &'a str,
    pub(crate) input: &'a str,
    pub(crate) out: &'a str,
    pub(crate) err: &'a str,
}

pub(crate) fn fails_of(words: &str) -> Fails<'_> {
    let (dial, words) = first_word(words);
    let (link, words) = first_word(words);
    let (input, words) = first_word(words);
    let (out, err) = first_word(words);
    Fails {
        dial,
        link,
        input,
        out,
        err,
    }
}
