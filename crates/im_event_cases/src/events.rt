//! An event, read.

use crate::images::image;
use crate::placing::place;
use crate::words::Words;
use crate::wrong::Wrong;
use im_machine::events::Event;
use im_machine::questions::{KeyQuestion, ProofQuestion};
use im_machine::words::Word;
use std::alloc::Global;

/// The event that a line says.
pub fn event(alloc: Global, line: &str) -> Result<Event, Wrong> {
    let mut words = Words::new(line);
    match words.word() {
        "place" => place(alloc, &mut words),
        "stage" => stage(&mut words),
        "seal" => Ok(Event::Seal {
            fails: words.fails()?,
        }),
        "gate" => Ok(Event::Gate {
            fails: words.fails()?,
        }),
        "settle" => Ok(Event::Settle {
            fails: words.fails()?,
        }),
        "ack" => ack(&mut words),
        "fault" => Ok(Event::Fault),
        "link" => Ok(Event::Link),
        "index" => Ok(Event::Index),
        "load" => load(&mut words),
        "snap" => snap(alloc, &mut words),
        "prove" => prove(&mut words),
        "crash" => Ok(Event::Crash {
            image: image(alloc, words.rest())?,
        }),
        "open" => Ok(Event::Open),
        _ => Err(Wrong::Event),
    }
}

// `stage LAST`, `stage LAST fails`
fn stage(words: &mut Words) -> Result<Event, Wrong> {
    let last = words.number()?;
    let fails = words.fails()?;
    Ok(Event::Stage { last, fails })
}

// `ack SESSION NUMBER`
fn ack(words: &mut Words) -> Result<Event, Wrong> {
    let session = words.number()?;
    let number = words.number()?;
    Ok(Event::Ack { session, number })
}

// `load SESSION WORD`
fn load(words: &mut Words) -> Result<Event, Wrong> {
    let session = words.number()?;
    let word = match words.word() {
        "placed" => Word::Placed,
        "durable" => Word::Durable,
        "linked" => Word::Linked,
        "indexed" => Word::Indexed,
        "failed" => Word::Failed,
        _ => return Err(Wrong::Event),
    };
    Ok(Event::Load { session, word })
}

// `snap SESSION NUMBER get KEY`, `.. scan PREFIX`, `.. versions KEY`
fn snap(alloc: Global, words: &mut Words) -> Result<Event, Wrong> {
    let session = words.number()?;
    let number = words.number()?;
    let question = match words.word() {
        "get" => KeyQuestion::Get {
            key: words.octets(alloc)?,
        },
        "scan" => KeyQuestion::Scan {
            prefix: words.octets(alloc)?,
        },
        "versions" => KeyQuestion::Versions {
            key: words.octets(alloc)?,
        },
        _ => return Err(Wrong::Event),
    };
    Ok(Event::Snap {
        session,
        number,
        question,
    })
}

// `prove SESSION header NUMBER`, `.. dual SOURCE TARGET`, `.. advance SOURCE TARGET`, `.. item NUMBER INDEX STATE`
fn prove(words: &mut Words) -> Result<Event, Wrong> {
    let session = words.number()?;
    let question = match words.word() {
        "header" => ProofQuestion::Header {
            number: words.number()?,
        },
        "dual" => ProofQuestion::Dual {
            source: words.number()?,
            target: words.number()?,
        },
        "advance" => ProofQuestion::Advance {
            source: words.number()?,
            target: words.number()?,
        },
        "item" => item(words)?,
        _ => return Err(Wrong::Event),
    };
    Ok(Event::Prove { session, question })
}

// `NUMBER INDEX STATE`
fn item(words: &mut Words) -> Result<ProofQuestion, Wrong> {
    let number = words.number()?;
    let index = match u32::try_from(words.number()?) {
        Ok(index) => index,
        Err(_) => return Err(Wrong::Number),
    };
    let state = words.number()?;
    Ok(ProofQuestion::Item {
        number,
        index,
        state,
    })
}
