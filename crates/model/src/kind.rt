// What an event is to the levels.
ghost use Rattle.std.specs.Prelude.{◌≡◌};
ghost use Rattle.model.specs.Kinds.{kind_reading};

#[derive(Clone, Copy, PartialEq, Eq, Debug)]
pub enum Kind {
    // of the high level alone
    High,
    // of one low level alone
    Low,
    // from the high level to a low level
    Request,
    // from a low level to the high level
    Answer,
}

// The refusal of a letter that names no kind.
#[derive(Clone, Copy, PartialEq, Eq, Debug)]
pub struct UnknownKind;

// The kind by the letter of an event row.
impl TryFrom<u8> for Kind {
    type Error = UnknownKind;

    ghost try_from_gives = { λ letter r. r ≡ kind_reading letter };

    fn try_from(letter: u8) -> Result<Kind, UnknownKind> {
        match letter as char {
            'H' => Ok(Kind::High),
            'L' => Ok(Kind::Low),
            'R' => Ok(Kind::Request),
            'A' => Ok(Kind::Answer),
            _ => Err(UnknownKind),
        }
    }
}
