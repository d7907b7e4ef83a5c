// The refusals: 01, "Refused, in order of test", with its names and numbers.
ghost use Rattle.std.specs.Prelude.{◌≡◌};
ghost use Rattle.head.specs.Rules.{number_of, push_refused};
ghost use Rattle.head.specs.declared.refusal.Refusal.TheVariants.{OutShort, ListShort, FasnWorn, DriftRange};

use acks::history::FasnWorn;
use clock::base::DriftRange;
use window::push::PushRefusal;
use window_pop::pop::OutShort;
use window_report::report::ListShort;

#[derive(Clone, Copy, PartialEq, Eq, Debug)]
pub enum Refusal {
    HeadBad,
    AreaShort,
    ClockRange,
    ClockBack,
    BadNumber,
    PayloadLong,
    BufferFull,
    PacketTooEarly { room: usize, need: usize },
    PacketTooLate,
    DiscardedDuplicate,
    OutShort,
    ListShort,
    FasnWorn,
    DriftRange,
    BadSetting,
}

impl Refusal {
    pub fn number(self) -> u32
        ensures { result ≡ number_of self }
    {
        match self {
            Refusal::HeadBad => 1,
            Refusal::AreaShort => 2,
            Refusal::ClockRange => 3,
            Refusal::ClockBack => 4,
            Refusal::BadNumber => 5,
            Refusal::PayloadLong => 6,
            Refusal::BufferFull => 7,
            Refusal::PacketTooEarly { .. } => 8,
            Refusal::PacketTooLate => 9,
            Refusal::DiscardedDuplicate => 10,
            Refusal::OutShort => 11,
            Refusal::ListShort => 12,
            Refusal::FasnWorn => 13,
            Refusal::DriftRange => 14,
            Refusal::BadSetting => 15,
        }
    }
}

// The refusals of the layers below.

impl From<PushRefusal> for Refusal {
    ghost from_gives = { λ below e. e ≡ push_refused below };

    fn from(below: PushRefusal) -> Refusal {
        match below {
            PushRefusal::BufferFull => Refusal::BufferFull,
            PushRefusal::PacketTooEarly { room, need } => Refusal::PacketTooEarly { room, need },
            PushRefusal::PacketTooLate => Refusal::PacketTooLate,
            PushRefusal::DiscardedDuplicate => Refusal::DiscardedDuplicate,
        }
    }
}

impl From<OutShort> for Refusal {
    ghost from_gives = { λ _ e. e ≡ OutShort };

    fn from(_below: OutShort) -> Refusal {
        Refusal::OutShort
    }
}

impl From<ListShort> for Refusal {
    ghost from_gives = { λ _ e. e ≡ ListShort };

    fn from(_below: ListShort) -> Refusal {
        Refusal::ListShort
    }
}

impl From<FasnWorn> for Refusal {
    ghost from_gives = { λ _ e. e ≡ FasnWorn };

    fn from(_below: FasnWorn) -> Refusal {
        Refusal::FasnWorn
    }
}

impl From<DriftRange> for Refusal {
    ghost from_gives = { λ _ e. e ≡ DriftRange };

    fn from(_below: DriftRange) -> Refusal {
        Refusal::DriftRange
    }
}
