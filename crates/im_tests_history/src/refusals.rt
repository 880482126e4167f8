//! Preconditions, judged by the plain program and by a book, before and behind its index of keys is brought to the last
//! transaction.

ghost use Rattle.std.specs.Prelude.{◌≡◌, ◌<◌, ◌≤◌, length};

use crate::values::{FOUR, Write, history_of};
use im_book::book::Book;
use im_draft::preconditions::{Pre, Pres};
use im_index::steps::Steps;
use im_model::entries::Entries;
use im_model::transactions::Transaction;
use im_octet::octets::Octets;
use im_plain::versions::place_refusal;
use im_versions::refusals::PlaceError;
use std::alloc::{AllocError, Global};
use std::marker::Brand;
use std::sync::ledger::{Blank, Ledger};
use std::test::Fail;

// What has to hold of a key.
#[derive(Clone, Copy)]
enum Condition {
    Exists,
    Missing,
    Since(u64),
}

use Condition::{Exists, Missing, Since};

// A precondition: its key, and what has to hold of it.
type Asked<'a> = (&'a [u8], Condition);

// k is set, and then written in entries that no index shows.
static HIDDEN: &[&[Write]] = &[
    &[(b"", b"k", b"1")],
    &[(b"\x02", b"k", b"2")],
    &[(b"\x00\x02", b"k", b"")],
];

// k and j are set, j is written in an entry that no index shows, and k is deleted.
static MIXED: &[&[Write]] = &[
    &[(b"", b"k", b"1")],
    &[(b"", b"j", b"2")],
    &[(b"\x02", b"j", b"3")],
    &[(b"\x00", b"k", b"")],
];

// How many transactions there are, what is asked behind them, and the refusal.
type Row<'a> = (usize, &'a [Asked<'a>], &'a [u8]);

static OF_FOUR: &[Row] = &[
    (1, &[], b"none"),
    (1, &[(b"k", Missing)], b"exists k@1"),
    (1, &[(b"k", Exists)], b"none"),
    (1, &[(b"k", Since(1))], b"none"),
    (1, &[(b"k", Since(0))], b"modified k@1"),
    (1, &[(b"z", Exists)], b"missing z"),
    (1, &[(b"z", Missing)], b"none"),
    (1, &[(b"z", Since(0))], b"none"),
    (1, &[(b"z", Exists), (b"k", Missing)], b"missing z"),
    (1, &[(b"k", Missing), (b"z", Exists)], b"exists k@1"),
    (1, &[(b"k", Since(1)), (b"z", Exists)], b"missing z"),
    (3, &[(b"k", Since(1))], b"modified k@3"),
    (3, &[(b"k", Since(3))], b"none"),
    (3, &[(b"k", Missing)], b"exists k@3"),
    (3, &[(b"k", Exists)], b"none"),
    (4, &[(b"k", Exists)], b"missing k"),
    (4, &[(b"k", Missing)], b"none"),
    (4, &[(b"k", Since(3))], b"modified k@4"),
    (4, &[(b"k", Since(4))], b"none"),
    (4, &[(b"x", Since(0))], b"none"),
    (
        4,
        &[(b"k", Since(4)), (b"k", Exists), (b"j", Missing)],
        b"missing k",
    ),
    (
        4,
        &[(b"k", Since(4)), (b"j", Missing), (b"k", Exists)],
        b"exists j@2",
    ),
];

static OF_HIDDEN: &[Row] = &[
    (3, &[(b"k", Since(1))], b"none"),
    (3, &[(b"k", Missing)], b"exists k@1"),
];

// The preconditions that are asked for.
fn pres_of(alloc: Global, asked: &[Asked]) -> Result<Vec<Pre>, AllocError> {
    let mut pres = Vec::new(alloc);
    for (key, condition) in asked {
        let key = Octets::from_slice(alloc, key)?;
        pres.push(match *condition {
            Exists => Pre::Exists { key },
            Missing => Pre::Missing { key },
            Since(n) => Pre::Since { key, n },
        })?;
    }
    Ok(pres)
}

// The name of a refusal, its key, and behind @ the number of the key's last version.
fn text_of(alloc: Global, refusal: &Option<PlaceError>) -> Result<Vec<u8>, AllocError> {
    match refusal {
        None => Vec::from_slice(alloc, b"none"),
        Some(PlaceError::Memory) => Vec::from_slice(alloc, b"memory"),
        Some(PlaceError::Full) => Vec::from_slice(alloc, b"full"),
        Some(PlaceError::Missing { key }) => text(alloc, b"missing ", key, 0),
        Some(PlaceError::Exists { key, tx }) => text(alloc, b"exists ", key, *tx),
        Some(PlaceError::Modified { key, tx }) => text(alloc, b"modified ", key, *tx),
    }
}

// The same of a refusal that isn't needed any more.
fn told_of(alloc: Global, refusal: Option<PlaceError>) -> Result<Vec<u8>, AllocError> {
    let text = text_of(alloc, &refusal);
    drop(refusal);
    text
}

fn text(alloc: Global, name: &[u8], key: &Octets, tx: u64) -> Result<Vec<u8>, AllocError> {
    let mut text = Vec::from_slice(alloc, name)?;
    text.extend_from_slice(key.as_slice())?;
    if tx != 0 {
        text.extend_from_slice(format!(in alloc; "@{tx}")?.as_bytes())?;
    }
    Ok(text)
}

// What the plain program answers to what is asked behind these transactions.
fn plain_answer(
    alloc: Global,
    history: &[Transaction],
    asked: &[Asked],
) -> Result<Vec<u8>, AllocError> {
    let pres = pres_of(alloc, asked)?;
    let refusal = place_refusal(alloc, history, &pres);
    drop(pres);
    told_of(alloc, refusal?)
}

// What a book answers.
fn judged(alloc: Global, book: &Book, asked: &[Asked]) -> Result<Vec<u8>, AllocError> {
    let pres = pres_of(alloc, asked)?;
    told_of(alloc, book.judge(Pres::from_vec(pres)).err())
}

// Whether both give this answer.
fn both_answer(
    alloc: Global,
    book: &Book,
    asked: &[Asked],
    text: &[u8],
) -> Result<bool, AllocError> {
    Ok(
        plain_answer(alloc, book.transactions(), asked)?.as_slice() == text
            && judged(alloc, book, asked)?.as_slice() == text,
    )
}

// The book of these writes; preconditions are judged without headers.
fn book_of(alloc: Global, writes: &[&[Write]]) -> Result<Book, Fail> {
    let history = history_of(alloc, writes)?;
    Ok(Book::of(alloc, history, Vec::new(alloc), Vec::new(alloc)))
}

// What a book answers that counts its steps.
fn judged_counted<L: Ledger>(
    alloc: Global,
    book: &mut Book,
    asked: &[Asked],
    blank: Blank,
) -> Result<Vec<u8>, AllocError>
    requires name { blank.name ≡ L.name }
    requires parts { blank.parts ≡ L.parts }
    requires some { 0 < blank.parts }
    requires few { length book.old.transactions ≤ 1048576 }
{
    book.catch_up(alloc)?;
    let pres = pres_of(alloc, asked)?;
    let mut steps = Steps::<L>::new(blank);
    told_of(
        alloc,
        book.judge_steps(Pres::from_vec(pres), &mut steps).err(),
    )
}

// Whether a book gives this answer behind its index of keys is brought to the last transaction, by each of the two calls.
fn keys_answer(
    alloc: Global,
    book: &mut Book,
    asked: &[Asked],
    text: &[u8],
) -> Result<bool, AllocError> {
    if book.len() > 1_048_576 {
        return Ok(false);
    }
    let counted = judged_counted::<Brand>(alloc, book, asked, Blank::new(1))?;
    Ok(counted.as_slice() == text && judged(alloc, book, asked)?.as_slice() == text)
}

// Whether both give this answer, and the book also behind its index of keys is brought to the last transaction.
fn all_answer(
    alloc: Global,
    book: &mut Book,
    asked: &[Asked],
    text: &[u8],
) -> Result<bool, AllocError> {
    Ok(both_answer(alloc, book, asked, text)? && keys_answer(alloc, book, asked, text)?)
}

// Whether both answer this row.
fn is_answered(alloc: Global, writes: &[&[Write]], row: &Row) -> Result<bool, Fail> {
    let (n, asked, text) = *row;
    if n > writes.len() {
        return Ok(false);
    }
    let mut book = book_of(alloc, &writes[..n])?;
    let same = all_answer(alloc, &mut book, asked, text);
    drop(book);
    Ok(same?)
}

fn are_answered(alloc: Global, writes: &[&[Write]], rows: &[Row]) -> Result<bool, Fail> {
    for row in rows {
        if !is_answered(alloc, writes, row)? {
            return Ok(false);
        }
    }
    Ok(true)
}

// Whether both answer the same of this key, behind all transactions.
fn agree_on(alloc: Global, book: &Book, key: &[u8]) -> Result<bool, AllocError> {
    for n in 0..5 {
        let asked = [(key, Since(n)), (key, Exists), (key, Missing)];
        let text = plain_answer(alloc, book.transactions(), &asked)?;
        if !both_answer(alloc, book, &asked, &text)? {
            return Ok(false);
        }
    }
    Ok(true)
}

// Whether both answer the same of each key.
fn agree_on_each(alloc: Global, book: &Book) -> Result<bool, AllocError> {
    Ok(agree_on(alloc, book, b"j")? && agree_on(alloc, book, b"k")? && agree_on(alloc, book, b"z")?)
}

fn agree(alloc: Global, writes: &[&[Write]]) -> Result<bool, Fail> {
    let book = book_of(alloc, writes)?;
    let same = agree_on_each(alloc, &book);
    drop(book);
    Ok(same?)
}

fn both_judge_by_the_last_version(alloc: Global) -> Result<bool, Fail> {
    Ok(
        are_answered(alloc, FOUR, OF_FOUR)?
            && are_answered(alloc, HIDDEN, OF_HIDDEN)?
            && agree(alloc, FOUR)?
            && agree(alloc, HIDDEN)?,
    )
}

#[test]
fn preconditions_are_judged_by_the_last_version(rt: HostRuntime) -> Result<(), Fail> {
    assert!(rt; both_judge_by_the_last_version(rt.alloc())?);
    Ok(())
}

// So many transactions without entries.
fn empty(alloc: Global, count: usize) -> Result<Vec<Transaction>, AllocError> {
    let mut history = Vec::with_capacity(alloc, count)?;
    for _ in 0..count {
        let entries = Entries::from_vec(Vec::new(alloc));
        history.push(Transaction {
            ts: 0,
            entries,
            bl: 0,
        })?;
    }
    Ok(history)
}

// Whether both give this answer behind so many transactions, where a key has to be live.
fn answered_behind(alloc: Global, count: usize, text: &[u8]) -> Result<bool, AllocError> {
    let book = Book::of(
        alloc,
        empty(alloc, count)?,
        Vec::new(alloc),
        Vec::new(alloc),
    );
    let same = both_answer(alloc, &book, &[(b"x", Exists)], text);
    drop(book);
    same
}

fn is_full_behind_its_last(alloc: Global) -> Result<bool, AllocError> {
    Ok(
        answered_behind(alloc, 1_048_575, b"missing x")?
            && answered_behind(alloc, 1_048_576, b"full")?,
    )
}

#[test]
fn a_history_of_1048576_transactions_is_full(rt: HostRuntime) -> Result<(), Fail> {
    assert!(rt; is_full_behind_its_last(rt.alloc())?);
    Ok(())
}
