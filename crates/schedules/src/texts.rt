//! The few texts that threads intern, each in two cases.

/// The case of a text.
#[derive(Clone, Copy)]
pub enum Case {
    Lower,
    Upper,
}

/// A text in both cases.
#[derive(Clone, Copy)]
struct Text {
    lower: &'static str,
    upper: &'static str,
}

/// A text in one of its cases.
#[derive(Clone, Copy)]
pub struct Word {
    text: Text,
    case: Case,
}

/// None is inline. By SipHash their buckets among 4096 are 0x72f, 0x72f, 0, 0xfff and 0xa8a: so the first two share a bucket, whatever the number of
/// buckets up to that, and with 16 buckets the third has another. In upper case they are texts of their own: so there are more than the eight that
/// a bucket of a set with a name walks.
const TEXTS: [Text; 5] = [
    Text {
        lower: "forgotten",
        upper: "FORGOTTEN",
    },
    Text {
        lower: "magnitude",
        upper: "MAGNITUDE",
    },
    Text {
        lower: "afterwards",
        upper: "AFTERWARDS",
    },
    Text {
        lower: "geometric",
        upper: "GEOMETRIC",
    },
    Text {
        lower: "elsewhere",
        upper: "ELSEWHERE",
    },
];

impl Word {
    /// The word of a number: 0 to 4 are the texts in lower case, and 5 to 9 in upper case.
    pub fn of_number(number: u8) -> Option<Word> {
        let case = if number < 5 { Case::Lower } else { Case::Upper };
        let text = TEXTS.get(usize::from(number % 5))?;
        if number < 10 {
            Some(Word { text: *text, case })
        } else {
            None
        }
    }

    pub fn as_str(&self) -> &'static str {
        match self.case {
            Case::Lower => self.text.lower,
            Case::Upper => self.text.upper,
        }
    }

    /// The number of a text, or `None` if no word has it.
    pub fn number_of(text: &str) -> Option<u8> {
        (0..10u8).find(|number| match Word::of_number(*number) {
            Some(word) => word.as_str() == text,
            None => false,
        })
    }

    /// The same text in this case, or in its own.
    pub fn again(&self, case: Option<Case>) -> Word {
        Word {
            text: self.text,
            case: case.unwrap_or(self.case),
        }
    }
}
