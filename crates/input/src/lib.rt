// The program's input: a house paper, an empty line, and events.
#![tactic(auto)]

ghost use Rattle.std.specs.Prelude.{◌≡◌, ◌≤◌, true, length, drop, map};
ghost use Rattle.std.specs.Iterator.{YieldsFirstRef, item_count};
ghost use Rattle.forms.specs.Lines.{lines};
ghost use Rattle.input.specs.Parts.{before_blank, paper_part, event_part, first_event, other_events, unended, too_long};

use forms::lines::{ends_line, line_length};
use std::marker::Model;

// Of an input, in bytes.
pub const MOST_INPUT: usize = 65_536;

pub fn is_too_long(input: &[u8]) -> bool
    ensures { result ≡ too_long input.now }
{
    input.len() > MOST_INPUT
}

// How many bytes come before the first empty line.
fn before_blank(input: &[u8]) -> usize
    ensures value { result ≡ before_blank true input.now }
    ensures within { result ≤ length input.now }
{
    // Whether a line is empty hangs on the byte before too, which a closure of `position` would have to keep; a sum of the
    // lengths of `Lines` would have to show that it stays in range.
    let mut begins = true;
    for (i, byte) in input.iter().enumerate() {
        let ends = ends_line(*byte);
        if begins && ends {
            return i;
        }
        begins = ends;
    }
    input.len()
}

fn behind_first(text: &[u8]) -> &[u8]
    ensures { result.now ≡ drop 1 text.now }
{
    match text {
        [_, rest @ ..] => rest,
        [] => text,
    }
}

// The paper, and the events behind the empty line; with no empty line there are none.
pub fn split_input(input: &[u8]) -> (&[u8], &[u8])
    ensures paper { result.0.now ≡ paper_part input.now }
    ensures events { result.1.now ≡ event_part input.now }
{
    let (paper, rest) = input.split_at(before_blank(input));
    (paper, behind_first(rest))
}

// The first event line without its end, and what comes behind it.
pub fn split_event(events: &[u8]) -> (&[u8], &[u8])
    ensures first { result.0.now ≡ first_event events.now }
    ensures others { result.1.now ≡ other_events events.now }
{
    let (line, others) = events.split_at(line_length(events));
    (unended(line), others)
}

#[tactic(auto, using(crate::proofs::Scans::unended_body, crate::proofs::Scans::unended_same))]
fn unended(line: &[u8]) -> &[u8]
    ensures { result.now ≡ unended line.now }
{
    match line {
        [body @ .., last] if ends_line(*last) => body,
        _ => line,
    }
}

// The event lines that are still to come, each without its end.
#[derive(Drop)]
pub struct EventLines<'a> {
    events: &'a [u8],
}

impl<'a> Model for EventLines<'a> {
    ghost use Rattle.std.specs.Prelude.{ℕ, List, map};
    ghost use Rattle.forms.specs.Lines.{lines};
    ghost use Rattle.input.specs.Parts.{unended};

    ghost Value = { List (List ℕ) };

    ghost view = { λ e. map unended (lines e.events.now) };
}

impl<'a> EventLines<'a> {
    pub fn new(events: &'a [u8]) -> EventLines<'a>
        ensures { result ≡ map unended (lines events.now) }
    {
        EventLines { events }
    }
}

impl<'a> Iterator for EventLines<'a> {
    type Item = &'a [u8];

    ghost next_gives = { YieldsFirstRef (λ lines. lines) };

    ghost remaining = { item_count (λ lines. lines) };

    #[tactic(auto, using(crate::proofs::Scans::next_event))]
    fn next(&mut self) -> Option<&'a [u8]> {
        if self.events.is_empty() {
            return None;
        }
        let (line, others) = split_event(self.events);
        self.events = others;
        Some(line)
    }
}
