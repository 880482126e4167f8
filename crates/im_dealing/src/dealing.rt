//! The lines of a phase are dealt to their sessions.

ghost use Rattle.std.specs.Prelude.{◌≡◌, ◌≢◌, ◌≤◌, AllPairs, [], length, map, IfOk, OnOk, true, vec_capacity};
ghost use Rattle.std.specs.List.{All};
ghost use Rattle.im_dealing.specs.Dealing.{AreDealt, AreNamed, IsAt};
ghost use Rattle.im_script.specs.Script.{has_name};

use crate::sessions::{Ended, Lines, Session};
use im_octet::octets::Octets;
use im_script::commands::Line;
use im_script::phases::Phase;
use std::alloc::{AllocError, Global};

/// The lines of a phase, each at its session.
#[derive(Drop)]
pub(crate) struct Dealt {
    /// The number of each line's session, in the script's order.
    pub(crate) order: Vec<u8>,
    /// The lines of each session, in the script's order.
    pub(crate) lines: Vec<Lines>,
}

// The number, from 0, of the session with this name.
fn number_of(names: &[Octets], name: &[u8]) -> usize
    requires { has_name names.now name.now ≡ true }
    ensures { IsAt names.now name.now result }
{
    for (number, first) in names.iter().enumerate() {
        if first.as_slice() == name {
            return number;
        }
    }
    unreachable!()
}

// An empty list for each session.
fn empty_hands(alloc: Global, count: usize) -> Result<Vec<Vec<Line>>, AllocError>
    ensures { IfOk result (λ hands. (length hands.items ≡ count) × All (λ hand. hand.items ≡ []) hands.items) }
{
    let mut hands = Vec::with_capacity(alloc, count)?;
    for _ in 0..count {
        hands.push(Vec::new(alloc)).map_err(AllocError::from)?;
    }
    Ok(hands)
}

// Puts each line into the hand of its session, and its session's number behind the order.
fn deal_out(
    names: &[Octets],
    lines: Vec<Line>,
    hands: &mut [Vec<Line>],
    order: &mut Vec<u8>,
) -> Result<(), AllocError>
    requires named { AreNamed names.now lines.items }
    requires apart { AllPairs (λ a b. a ≢ b) names.now }
    requires few { length names.now ≤ 8 }
    requires hands { (length hands.old ≡ length names.now) × All (λ hand. hand.items ≡ []) hands.old }
    requires none { order.old.items ≡ [] }
    ensures { OnOk result (AreDealt names.now lines.items order.new.items (map (λ hand. hand.items) hands.new)) }
{
    for line in lines {
        let number = number_of(names, line.session.as_slice());
        hands[number].push(line).map_err(AllocError::from)?;
        order.push(number as u8).map_err(AllocError::from)?;
    }
    Ok(())
}

/// Deals the lines of a phase to the sessions with these names, at most eight, each once: each line has the name of one. It moves
/// the lines, and compares the name of each with the names.
pub(crate) fn deal(alloc: Global, names: &[Octets], phase: Phase) -> Result<Dealt, AllocError>
    requires named { AreNamed names.now phase }
    requires apart { AllPairs (λ a b. a ≢ b) names.now }
    requires few { length names.now ≤ 8 }
    ensures { IfOk result (λ dealt. AreDealt names.now phase dealt.order.items dealt.lines.items) }
{
    let lines = phase.into_vec();
    let mut order = Vec::with_capacity(alloc, lines.len())?;
    let mut hands = empty_hands(alloc, names.len())?;
    deal_out(names, lines, &mut hands, &mut order)?;
    Ok(Dealt {
        order,
        lines: in_hand(alloc, hands)?,
    })
}

// The hands as lines of sessions.
fn in_hand(alloc: Global, hands: Vec<Vec<Line>>) -> Result<Vec<Lines>, AllocError>
    ensures { IfOk result (λ lines. lines.items ≡ map (λ hand. hand.items) hands.items) }
{
    let mut lines = Vec::with_capacity(alloc, hands.len())?;
    for hand in hands {
        lines.push(Lines::from_vec(hand)).map_err(AllocError::from)?;
    }
    Ok(lines)
}

/// All the memory that a phase takes before its sessions begin.
#[derive(Drop)]
pub struct Room {
    /// The number of each line's session, in the script's order.
    pub order: Vec<u8>,
    /// The lines of each session, in the script's order.
    pub lines: Vec<Lines>,
    /// Room for the sessions.
    pub sessions: Vec<Session>,
    /// Room for what each session leaves.
    pub ended: Vec<Ended>,
}

/// Deals the lines, and takes room for the sessions and for what they leave.
pub fn room_for(alloc: Global, names: &[Octets], phase: Phase) -> Result<Room, AllocError>
    requires named { AreNamed names.now phase }
    requires apart { AllPairs (λ a b. a ≢ b) names.now }
    requires few { length names.now ≤ 8 }
    ensures dealt { IfOk result (λ room. AreDealt names.now phase room.order.items room.lines.items) }
    ensures none { IfOk result (λ room. (room.sessions.items ≡ []) × (room.ended.items ≡ [])) }
    ensures room { IfOk result (λ room. (length names.now ≤ vec_capacity room.sessions) × (length names.now ≤ vec_capacity room.ended)) }
{
    let sessions = Vec::with_capacity(alloc, names.len())?;
    let ended = Vec::with_capacity(alloc, names.len())?;
    let Dealt { order, lines } = deal(alloc, names, phase)?;
    Ok(Room {
        order,
        lines,
        sessions,
        ended,
    })
}
