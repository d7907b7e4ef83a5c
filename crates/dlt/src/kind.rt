// The kinds of a record: 01, "Trace, mark DLT": "Records by kind byte".
ghost use Rattle.std.specs.Prelude.{◌≡◌};
ghost use Rattle.dlt.specs.Record.{code_of, Decodes, least_size};

use crate::Unread;

#[derive(Clone, Copy, PartialEq, Eq, Debug)]
pub enum Kind {
    Data,
    Pop,
    Report,
    FullAck,
    Ack2,
    Drop,
    Clock,
    Clear,
}

impl TryFrom<u8> for Kind {
    type Error = Unread;

    ghost try_from_gives = { Decodes };

    fn try_from(code: u8) -> Result<Self, Unread> {
        match code {
            1 => Ok(Kind::Data),
            2 => Ok(Kind::Pop),
            3 => Ok(Kind::Report),
            4 => Ok(Kind::FullAck),
            5 => Ok(Kind::Ack2),
            6 => Ok(Kind::Drop),
            7 => Ok(Kind::Clock),
            8 => Ok(Kind::Clear),
            _ => Err(Unread::Bad),
        }
    }
}

impl Kind {
    // The bytes before a payload, the kind byte too.
    #[tactic(auto, unfolding(crate::specs::Record::least_size))]
    pub fn fixed(self) -> usize
        ensures { result ≡ least_size (code_of self) }
    {
        match self {
            Kind::Data => 24,
            Kind::Pop | Kind::Report | Kind::FullAck | Kind::Drop => 9,
            Kind::Ack2 | Kind::Clock => 13,
            Kind::Clear => 1,
        }
    }
}
