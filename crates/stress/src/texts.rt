//! The few texts that all workers intern.

/// The case of a text.
#[derive(Clone, Copy)]
pub enum Case {
    Lower,
    Upper,
}

/// A text in both cases.
#[derive(Clone, Copy)]
pub struct Text {
    lower: &'static str,
    upper: &'static str,
}

impl Text {
    pub fn in_case(&self, case: Case) -> &'static str {
        match case {
            Case::Lower => self.lower,
            Case::Upper => self.upper,
        }
    }
}

/// Of these, two have the same bucket, two are in the first and the last bucket, one is inline, and one is too long to be put into the other case
/// without an owned text. (By SipHash the buckets of "forgotten" and "magnitude" are 0x72f, of "afterwards" 0, of "geometric" 0xfff.)
pub static TEXTS: [Text; 8] = [
    Text {
        lower: "interned",
        upper: "INTERNED",
    },
    Text {
        lower: "tokenised",
        upper: "TOKENISED",
    },
    Text {
        lower: "forgotten",
        upper: "FORGOTTEN",
    },
    Text {
        lower: "magnitude",
        upper: "MAGNITUDE",
    },
    Text {
        lower: "afterwards",
        upper: "AFTERWARDS",
    },
    Text {
        lower: "geometric",
        upper: "GEOMETRIC",
    },
    Text {
        lower: "foo",
        upper: "FOO",
    },
    Text {
        lower: "a text of more than sixty-four bytes, of which the other case is an owned text",
        upper: "A TEXT OF MORE THAN SIXTY-FOUR BYTES, OF WHICH THE OTHER CASE IS AN OWNED TEXT",
    },
];
