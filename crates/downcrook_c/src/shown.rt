// Answers as structs of plain numbers, in the layout of C. Refusal and place come first, then the values that the call gives; after a refusal these are 0.
// Behind each struct stands how an answer of the library becomes one. specs/Shown.antt says which numbers an outcome is shown as.
// There is a struct for each shape, with its own refused case: an exported function cannot answer a struct with type parameters. A refusal is a number here, since
// C has no enum that holds a place.
ghost use Rattle.std.specs.Prelude.{◌≡◌};
ghost use Rattle.downcrook_c.specs.Shown.{shown};

use packets::list::ListSize;
use packets::refusal::Refusal;
use plan::frame::PlanHead;
use policy::RatesSize;
use timetable::Timetable;

// A verdict on packets in memory.
#[repr(C)]
#[derive(Clone, Copy, Default)]
pub struct Judged {
    pub refusal: u64,
    pub place: u64,
}

impl From<Result<(), Refusal>> for Judged {
    ghost use Rattle.packets.specs.Outcome.{verdict_of};
    ghost use Rattle.downcrook_c.specs.Shown.{judged_fields};

    ghost from_gives = { λ answer show. judged_fields show ≡ shown 0 (verdict_of answer) };

    fn from(answer: Result<(), Refusal>) -> Judged {
        match answer {
            Ok(()) => Judged::default(),
            Err(refusal) => Judged {
                refusal: refusal.number(),
                place: refusal.place() as u64,
            },
        }
    }
}

// A list that is read: its packets, and the bytes that it takes.
#[repr(C)]
#[derive(Clone, Copy, Default)]
pub struct Listed {
    pub refusal: u64,
    pub place: u64,
    pub packets: u64,
    pub bytes: u64,
}

impl From<Result<ListSize, Refusal>> for Listed {
    ghost use Rattle.packets.specs.Outcome.{list_answer_of};
    ghost use Rattle.downcrook_c.specs.Shown.{listed_fields};

    ghost from_gives = { λ answer show. listed_fields show ≡ shown 2 (list_answer_of answer) };

    fn from(answer: Result<ListSize, Refusal>) -> Listed {
        match answer {
            Ok(size) => Listed {
                packets: size.count as u64,
                bytes: size.bytes as u64,
                ..Listed::default()
            },
            Err(refusal) => Listed {
                refusal: refusal.number(),
                place: refusal.place() as u64,
                ..Listed::default()
            },
        }
    }
}

// A list or a plan that is written: the bytes that it takes, a frame's head included.
#[repr(C)]
#[derive(Clone, Copy, Default)]
pub struct Written {
    pub refusal: u64,
    pub place: u64,
    pub bytes: u64,
}

impl From<Result<usize, Refusal>> for Written {
    ghost use Rattle.packets.specs.Outcome.{written_answer_of};
    ghost use Rattle.downcrook_c.specs.Shown.{written_fields};

    ghost from_gives = { λ answer show. written_fields show ≡ shown 1 (written_answer_of answer) };

    fn from(answer: Result<usize, Refusal>) -> Written {
        match answer {
            Ok(bytes) => Written {
                bytes: bytes as u64,
                ..Written::default()
            },
            Err(refusal) => Written {
                refusal: refusal.number(),
                place: refusal.place() as u64,
                ..Written::default()
            },
        }
    }
}

// The rates of all epochs: how many epochs, and how many rounds.
#[repr(C)]
#[derive(Clone, Copy, Default)]
pub struct Rated {
    pub refusal: u64,
    pub place: u64,
    pub epochs: u64,
    pub rounds: u64,
}

impl From<Result<RatesSize, Refusal>> for Rated {
    ghost use Rattle.policy.specs.Answer.{rates_answer_of};
    ghost use Rattle.downcrook_c.specs.Shown.{rated_fields};

    ghost from_gives = { λ answer show. rated_fields show ≡ shown 2 (rates_answer_of answer) };

    fn from(answer: Result<RatesSize, Refusal>) -> Rated {
        match answer {
            Ok(size) => Rated {
                epochs: size.epochs as u64,
                rounds: size.rounds as u64,
                ..Rated::default()
            },
            Err(refusal) => Rated {
                refusal: refusal.number(),
                place: refusal.place() as u64,
                ..Rated::default()
            },
        }
    }
}

// A plan that is made: its rounds, its entries and its radio cost (bytes per second, squared, times seconds).
#[repr(C)]
#[derive(Clone, Copy, Default)]
pub struct Planned {
    pub refusal: u64,
    pub place: u64,
    pub rounds: u64,
    pub entries: u64,
    pub cost: u64,
}

impl From<Result<Timetable, Refusal>> for Planned {
    ghost use Rattle.timetable.specs.Answer.{timetable_answer_of};
    ghost use Rattle.downcrook_c.specs.Shown.{planned_fields};

    ghost from_gives = { λ answer show. planned_fields show ≡ shown 3 (timetable_answer_of answer) };

    fn from(answer: Result<Timetable, Refusal>) -> Planned {
        match answer {
            Ok(timetable) => Planned {
                rounds: timetable.rounds as u64,
                entries: timetable.entries as u64,
                cost: timetable.cost,
                ..Planned::default()
            },
            Err(refusal) => Planned {
                refusal: refusal.number(),
                place: refusal.place() as u64,
                ..Planned::default()
            },
        }
    }
}

// A plan that is read: its entries and its cost (bytes per second, squared, times seconds).
#[repr(C)]
#[derive(Clone, Copy, Default)]
pub struct Read {
    pub refusal: u64,
    pub place: u64,
    pub entries: u64,
    pub cost: u64,
}

impl From<Result<PlanHead, Refusal>> for Read {
    ghost use Rattle.plan.specs.Frame.{read_answer_of};
    ghost use Rattle.downcrook_c.specs.Shown.{read_fields};

    ghost from_gives = { λ answer show. read_fields show ≡ shown 2 (read_answer_of answer) };

    fn from(answer: Result<PlanHead, Refusal>) -> Read {
        match answer {
            Ok(head) => Read {
                entries: head.entries as u64,
                cost: head.cost,
                ..Read::default()
            },
            Err(refusal) => Read {
                refusal: refusal.number(),
                place: refusal.place() as u64,
                ..Read::default()
            },
        }
    }
}
