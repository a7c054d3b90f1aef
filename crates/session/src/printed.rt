//! The lines that a broker's program prints, each as a value.
#![tactic(auto, using(text::proofs::Kept::joined, crate::proofs::Decimals::decimal_short))]

ghost use Rattle.std.specs.Prelude.{◌≡◌, ◌≤◌, ◌++◌, length, decimal};
ghost use Rattle.session.specs.Printed.{field, quote_field, quote_text, grant_head, grant_line, client_head, client_line};
ghost use Rattle.session.specs.Printed.{printed_line, reported_line};
ghost use Rattle.text.specs.Texts.{kept, spelt};

use events::LineFault;
use rules::Quote;
use text::{Line, Text};

/// The client that a granted frame was taken from, and what that client paid for it.
#[derive(Clone, Copy, Drop)]
pub struct Taken {
    pub from: u32,
    pub over: Quote,
}

/// A frame granted to a client, what the client pays for it, and from whom it was taken; none where it was free.
#[derive(Clone, Copy, Drop)]
pub struct Grant {
    pub client: u32,
    pub frame: u32,
    pub paying: Quote,
    pub taken: Option<Taken>,
}

/// How many frames a client holds, and what it pays for the last.
#[derive(Clone, Copy, Drop)]
pub struct Held {
    pub frames: u32,
    pub price: Quote,
}

/// What is printed of an event line.
#[derive(Clone, Copy, Drop)]
pub enum Printed {
    /// `pool U frames F`: an accepted start.
    Pool { unit: u32, frames: u32 },
    /// `admit C`: an accepted admission.
    Admit { client: u32 },
    /// `grant C frame F from 0 paying P`, or `grant C frame F from D paying P over P`: an accepted ask.
    Grant(Grant),
    /// `back C frame F`: an accepted hand-back.
    Back { client: u32, frame: u32 },
    /// `leave C frames N`: an accepted leave.
    Leave { client: u32, frames: u32 },
    /// `estimate C`: an accepted estimate.
    Estimate { client: u32 },
    /// `clock T ended N`: an accepted clock.
    Clock { tick: u32, ended: u32 },
    /// `line N refused R`, or `line N text K at C`: a refused or a malformed line.
    Refused(LineFault),
}

/// A line of the end report.
#[derive(Clone, Copy, Drop)]
pub enum Reported {
    /// `end free N`: the head of the report.
    Free { frames: u32 },
    /// `client C holds H price P`, or `client C holds 0 price -`.
    Client { client: u32, held: Option<Held> },
}

impl Line for Printed {
    ghost spelling = { printed_line };

    fn add_to(&self, text: &mut Text) {
        match *self {
            Printed::Pool { unit, frames } => {
                add_number(text, b"pool ", unit);
                add_number(text, b" frames ", frames);
            }
            Printed::Admit { client } => add_number(text, b"admit ", client),
            Printed::Grant(grant) => add_grant(text, grant),
            Printed::Back { client, frame } => {
                add_number(text, b"back ", client);
                add_number(text, b" frame ", frame);
            }
            Printed::Leave { client, frames } => {
                add_number(text, b"leave ", client);
                add_number(text, b" frames ", frames);
            }
            Printed::Estimate { client } => add_number(text, b"estimate ", client),
            Printed::Clock { tick, ended } => {
                add_number(text, b"clock ", tick);
                add_number(text, b" ended ", ended);
            }
            Printed::Refused(fault) => fault.add_to(text),
        }
    }
}

// Apart from `Printed`: no event line gives one of these, and the report has no others.
impl Line for Reported {
    ghost spelling = { reported_line };

    fn add_to(&self, text: &mut Text) {
        match *self {
            Reported::Free { frames } => add_number(text, b"end free ", frames),
            Reported::Client { client, held } => add_client(text, client, held),
        }
    }
}

// Each `short` below says how long a part is at most: a contract knows that its numbers have 32 bits, and a lemma would
// have to be told it of each.

/// Appends a word and a number to a text. The number takes 10 bytes at most.
fn add_number(text: &mut Text, word: &[u8], n: u32)
    ensures short { length (decimal n) ≤ 10 }
    ensures text { spelt text.new ≡ kept (spelt text.old ++ field word.now n) }
{
    text.bytes(word);
    text.number(n as u64);
}

/// Appends a word and a quote to a text. The quote takes 32 bytes at most.
fn add_quote(text: &mut Text, word: &[u8], quote: Quote)
    ensures short { length (quote_text quote) ≤ 32 }
    ensures text { spelt text.new ≡ kept (spelt text.old ++ quote_field word.now quote) }
{
    add_number(text, word, quote.class);
    add_number(text, b":", quote.top);
    add_number(text, b"/", quote.bottom);
}

/// Appends a grant from a client, or from 0 where the frame was free, and what is paid for it to a text.
fn add_grant_head(text: &mut Text, grant: Grant, from: u32)
    ensures text { spelt text.new ≡ kept (spelt text.old ++ grant_head grant from) }
    ensures short { length (grant_head grant from) ≤ 89 }
{
    add_number(text, b"grant ", grant.client);
    add_number(text, b" frame ", grant.frame);
    add_number(text, b" from ", from);
    add_quote(text, b" paying ", grant.paying);
}

/// Appends the line of a grant to a text.
fn add_grant(text: &mut Text, grant: Grant)
    ensures text { spelt text.new ≡ kept (spelt text.old ++ grant_line grant grant.taken) }
    ensures short { length (grant_line grant grant.taken) ≤ 128 }
{
    add_grant_head(text, grant, grant.taken.map_or(0, |taken| taken.from));
    if let Some(taken) = grant.taken {
        add_quote(text, b" over ", taken.over);
    }
}

/// Appends a client and how many frames it holds to a text.
fn add_client_head(text: &mut Text, client: u32, frames: u32)
    ensures text { spelt text.new ≡ kept (spelt text.old ++ client_head client frames) }
    ensures short { length (client_head client frames) ≤ 34 }
{
    add_number(text, b"client ", client);
    add_number(text, b" holds ", frames);
}

/// Appends the line of a client in the end report to a text.
fn add_client(text: &mut Text, client: u32, held: Option<Held>)
    ensures text { spelt text.new ≡ kept (spelt text.old ++ client_line client held) }
    ensures short { length (client_line client held) ≤ 128 }
{
    add_client_head(text, client, held.map_or(0, |held| held.frames));
    match held {
        None => text.bytes(b" price -"),
        Some(held) => add_quote(text, b" price ", held.price),
    }
}
