//! The calls of the week, besides the asks that lead to rest.
use rules::{Admission, Call, Estimate};
use std::fmt;

/// A day of the week.
#[derive(Clone, Copy, Drop)]
pub enum Day {
    Monday,
    Tuesday,
    Wednesday,
    Thursday,
    Friday,
}

impl fmt::Display for Day {
    fn fmt<W: fmt::Write>(&self, f: &mut fmt::Formatter<W>) -> fmt::Result {
        f.write_str(match self {
            Day::Monday => "monday",
            Day::Tuesday => "tuesday",
            Day::Wednesday => "wednesday",
            Day::Thursday => "thursday",
            Day::Friday => "friday",
        })
    }
}

/// A pool of six frames and three clients: 300 shares of class 0 with a minimum of 1, 100 shares of class 1, and 200 shares
/// of class 2 with a maximum of 4. An admission beyond the pool, one of a client that is there, and a second start are
/// refused.
pub fn monday() -> [Call; 7] {
    [
        Call::Start { unit: 7, frames: 6 },
        Call::Admit(Admission {
            client: 1,
            shares: 300,
            class: 0,
            minimum: 1,
            maximum: 6,
        }),
        Call::Admit(Admission {
            client: 2,
            shares: 100,
            class: 1,
            minimum: 0,
            maximum: 6,
        }),
        Call::Admit(Admission {
            client: 3,
            shares: 200,
            class: 2,
            minimum: 0,
            maximum: 4,
        }),
        Call::Admit(Admission {
            client: 4,
            shares: 50,
            class: 0,
            minimum: 0,
            maximum: 7,
        }),
        Call::Admit(Admission {
            client: 1,
            shares: 50,
            class: 0,
            minimum: 0,
            maximum: 2,
        }),
        Call::Start { unit: 8, frames: 9 },
    ]
}

/// The clients 1 and 3 say how many frames they use until tick 10 and tick 20. More than there are, and an end that is
/// not after the clock, are refused.
pub fn tuesday() -> [Call; 5] {
    [
        Call::SetClock { tick: 5 },
        Call::SetEstimate {
            client: 1,
            estimate: Estimate { active: 1, end: 10 },
        },
        Call::SetEstimate {
            client: 3,
            estimate: Estimate { active: 2, end: 20 },
        },
        Call::SetEstimate {
            client: 2,
            estimate: Estimate { active: 7, end: 20 },
        },
        Call::SetEstimate {
            client: 2,
            estimate: Estimate { active: 1, end: 5 },
        },
    ]
}

/// The clock ends one estimate; client 1 hands a frame back. A clock before the present tick is refused.
pub fn wednesday() -> [Call; 3] {
    [
        Call::SetClock { tick: 10 },
        Call::SetClock { tick: 9 },
        Call::HandBack { client: 1 },
    ]
}

/// Client 2 leaves, and its frames come free; it calls in vain. A client with a high minimum comes in its place.
pub fn friday() -> [Call; 4] {
    [
        Call::Leave { client: 2 },
        Call::Ask { client: 2 },
        Call::HandBack { client: 2 },
        Call::Admit(Admission {
            client: 2,
            shares: 100,
            class: 0,
            minimum: 2,
            maximum: 3,
        }),
    ]
}
