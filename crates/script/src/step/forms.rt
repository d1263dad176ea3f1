ghost use Rattle.std.specs.Prelude.{◌≡◌};
ghost use Rattle.std.specs.Option.{option_map};
ghost use Rattle.lines.specs.Words.{rest_words};
ghost use Rattle.script.specs.Scripts.{plain, set_of, tick_of, anew_of, only_node, up_of, stop_of, deliver_of};
ghost use Rattle.script.specs.Scripts.{two_of, ask_of, write_of, act_of, call_of};

use crate::step::parts::*;
use crate::step::{Act, Step};
use lines::decimal::number;
use lines::names::{kind, place};
use lines::words::{is, split};
use part::place::Place;
use site::event::Node;

// What the clocks show at first, from the words behind `set`.
pub(super) fn read_set(rest: Option<&[u8]>) -> Option<Step<Place>>
    ensures { option_map plain result ≡ set_of (rest_words rest.entry) }
{
    let (word, more) = split(rest?);
    let keeper = number(word)?;
    let mut borrowers = [0; 4];
    fill(more, &mut borrowers)?;
    Some(Step::Set { keeper, borrowers })
}

// How far time and clocks go on, from the words behind `tick`.
// It and `read_set` stay two: with how many numbers, with which at first and of which step are all they say.
pub(super) fn read_tick(rest: Option<&[u8]>) -> Option<Step<Place>>
    ensures { option_map plain result ≡ tick_of (rest_words rest.entry) }
{
    let (word, more) = split(rest?);
    let time = number(word)?;
    let mut by = [time; 5];
    fill(more, &mut by)?;
    Some(Step::Tick { time, by })
}

// Starting over, where nothing stands behind `anew`.
pub(super) fn read_anew(rest: Option<&[u8]>) -> Option<Step<Place>>
    ensures { option_map plain result ≡ anew_of (rest_words rest.entry) }
{
    over(rest).then_some(Step::Anew)
}

// Who is meant by the only word left.
fn only_node(rest: Option<&[u8]>) -> Option<Node>
    ensures { result ≡ only_node (rest_words rest.entry) }
{
    let (word, more) = split(rest?);
    if over(more) { node(word) } else { None }
}

// Who comes up, from the words behind `up`.
pub(super) fn read_up(rest: Option<&[u8]>) -> Option<Step<Place>>
    ensures { option_map plain result ≡ up_of (rest_words rest.entry) }
{
    only_node(rest).map(Step::Up)
}

// Who goes down, from the words behind `stop`.
pub(super) fn read_stop(rest: Option<&[u8]>) -> Option<Step<Place>>
    ensures { option_map plain result ≡ stop_of (rest_words rest.entry) }
{
    only_node(rest).map(Step::Stop)
}

// Which message arrives, how and where, from the words behind `deliver`.
pub(super) fn read_deliver(rest: Option<&[u8]>) -> Option<Step<Place>>
    ensures { option_map plain result ≡ deliver_of (rest_words rest.entry) }
{
    let (word, more) = split(rest?);
    let message = number(word)?;
    let (cut, more) = keyed(more, b"cut", number)?;
    let (to, more) = keyed(more, b"to", node)?;
    let torn = torn(more)?;
    Some(Step::Deliver {
        message,
        cut,
        to,
        torn,
    })
}

// The next two words, and what is left.
fn two(rest: Option<&[u8]>) -> Option<(&[u8], &[u8], Option<&[u8]>)>
    ensures { option_map (λ x. (x.0.now, x.1.now, rest_words x.2)) result ≡ two_of (rest_words rest.entry) }
{
    let (first, more) = split(rest?);
    let (second, more) = split(more?);
    Some((first, second, more))
}

// An ask of the kind that the next word names, and what is left.
fn read_ask(rest: Option<&[u8]>) -> Option<(Act, Option<&[u8]>)>
    ensures { option_map (λ x. (x.0, rest_words x.1)) result ≡ ask_of (rest_words rest.entry) }
{
    let (word, more) = split(rest?);
    Some((Act::Ask(kind(word)?), more))
}

// A write of the bytes that the next word gives, and what is left.
// It and `read_ask` stay two: what they do is one line, and a function of both would have two readers for parameters.
fn read_write(rest: Option<&[u8]>) -> Option<(Act, Option<&[u8]>)>
    ensures { option_map (λ x. (x.0, rest_words x.1)) result ≡ write_of (rest_words rest.entry) }
{
    let (word, more) = split(rest?);
    Some((Act::Write(bytes(word)?), more))
}

// What the word says is to be done, with what stands behind the part, and what is left.
fn read_act<'a>(word: &[u8], rest: Option<&'a [u8]>) -> Option<(Act, Option<&'a [u8]>)>
    ensures { option_map (λ x. (x.0, rest_words x.1)) result ≡ act_of word.now (rest_words rest.entry) }
{
    // The chain stays, as in `parse`.
    if is(word, b"ask") {
        read_ask(rest)
    } else if is(word, b"show") {
        Some((Act::Show, rest))
    } else if is(word, b"write") {
        read_write(rest)
    } else if is(word, b"forget") {
        Some((Act::Forget, rest))
    } else {
        None
    }
}

// What a borrower is to do, from its number and the words behind it.
pub(super) fn read_call(who: &[u8], rest: Option<&[u8]>) -> Option<Step<Place>>
    ensures { option_map plain result ≡ call_of who.now (rest_words rest.entry) }
{
    let (word, more) = split(rest?);
    let who = borrower(who)?;
    let (file, part, more) = two(more)?;
    let place = place(file, part)?;
    let (act, more) = read_act(word, more)?;
    let torn = torn(more)?;
    Some(Step::Call {
        who,
        place,
        act,
        torn,
    })
}
