//! Calls as the tests write them.
use rules::{Admission, Call, Estimate};

pub fn start(unit: u32, frames: u32) -> Call {
    Call::Start { unit, frames }
}

pub fn admission(client: u32, shares: u32, class: u32, minimum: u32, maximum: u32) -> Admission {
    Admission {
        client,
        shares,
        class,
        minimum,
        maximum,
    }
}

pub fn admit(client: u32, shares: u32, class: u32, minimum: u32, maximum: u32) -> Call {
    Call::Admit(admission(client, shares, class, minimum, maximum))
}

pub fn ask(client: u32) -> Call {
    Call::Ask { client }
}

pub fn hand_back(client: u32) -> Call {
    Call::HandBack { client }
}

pub fn leave(client: u32) -> Call {
    Call::Leave { client }
}

pub fn estimate(client: u32, active: u32, end: u32) -> Call {
    Call::SetEstimate {
        client,
        estimate: Estimate { active, end },
    }
}

pub fn clock(tick: u32) -> Call {
    Call::SetClock { tick }
}
