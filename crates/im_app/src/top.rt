ghost use Rattle.std.specs.Prelude.{◌≡◌, ◌⊎◌, ℕ, ◌+◌, ◌<◌, ◌≤◌, [], List, length, map, IfSome, Err, Some};
ghost use Rattle.std.specs.String.{string_bytes};
ghost use Rattle.im_dealing.specs.declared.errors.LineError.{LineError as Why};
ghost use Rattle.im_disk.specs.Disk.{Told, after, seen};
ghost use Rattle.im_disk.specs.declared.calls.Call.TheVariants.{Synced};
ghost use Rattle.im_disk.specs.Grown.{Grows};
ghost use Rattle.im_counts.specs.Counts.{Rose};
ghost use Rattle.im_edge.specs.Sources.{TakesAtMost};
ghost use Rattle.im_format.specs.Damages.{image_checks};
ghost use Rattle.im_format.specs.Standing.{Stands};
ghost use Rattle.im_format.specs.declared.damages.Damage.{Damage};
ghost use Rattle.im_model.specs.declared.transactions.Transaction.{Transaction};
ghost use Rattle.im_mtree.specs.Checks.{first_fail};
ghost use Rattle.im_script.specs.Script.{StopsAfter};
ghost use Rattle.im_verify.specs.Judged.{StopsHeld};
ghost use Rattle.im_verify.specs.Runs.{BreaksAt, BreaksInto, BreaksOff, Verifies};
ghost use Rattle.im_verify.specs.Shows.{Shows, ShowsPart};
ghost use Rattle.im_verify.specs.declared.ended.Ended.TheVariants as ended;
ghost use Rattle.im_words.specs.Command.{AreWordsRefused};
ghost use Rattle.im_words.specs.Form.{IsForm, IsGenForm, IsShowForm, IsVerifyForm};
ghost use Rattle.im_words.specs.Meaning.{AsksGen, AsksRun, AsksShow, AsksVerify};
ghost use Rattle.im_words.specs.declared.Link.{Link};
ghost use Rattle.im_status.specs.Fates.{HasRunFate, HasShow, HasVerdict};
ghost use Rattle.im_opening.specs.Cut.{SyncsAtMost};
ghost use Rattle.im_script.specs.declared.commands.Line.{Line};
ghost use Rattle.im_status.specs.Scripts.{IsGiven};
ghost use Rattle.im_status.specs.Statuses.{EndsGenerated, EndsGiven, EndsReading, EndsRun, EndsShow, EndsVerify, status_for};
ghost use Rattle.im_app.specs.Generated.{WritesGenerated, WritesGeneratedPart};
ghost use Rattle.im_app.specs.Runs.{FindsUnkept, GivesScript, HasOneSession, KeepsFound, LeavesFound, WritesFront, WritesPart, WritesReport};

use crate::generate::generate;
use crate::run::run;
use im_digest::Hash32;
use im_disk::disk::Disk;
use im_edge::clock::Clock;
use im_edge::gate::Gate;
use im_edge::keeper::Keeper;
use im_edge::sink::Sink;
use im_edge::source::Source;
use im_sqlmodel::engine::SqlEngine;
use im_status::shown::shown;
use im_status::status::{Done, Status};
use im_status::verdict::verdict;
use im_words::{Request, WordsError, read_words};
use std::alloc::Global;
use std::sync::Wait;
use std::thread::Threads;

/// Runs the program on its words, of which the first is its name.
///
/// `run` reads a script from the source to its end, opens the disk, judges whether the keys that begin with octet 00 are SQL's, and answers the lines over the history that it finds there, phase by phase: in
/// a phase each session answers its lines in order on a thread of its own, beside a linker, with `--link auto`, and an indexer. Once a phase is joined its
/// replies are written to the sink in the script's order. Each transaction that is told is durable by then. `verify` reads a stream of lines from the source to
/// its end, takes the lines that the keeper holds, and then judges each line of the stream as a client that trusts nobody: an accepted message is kept, and
/// what became of each line is written to the sink, up to the first that shows a fact unlike a kept one, which it tells
/// with two unequal strings of one digest. `show` takes the keeper's lines alone, and writes the state and the facts behind
/// them. The gate is called before and after each line of a script.
pub fn top<
    R: Threads + Wait + Sync,
    H: Hash32 + Sync,
    S: Source,
    K: Sink,
    D: Disk + Send,
    P: Keeper,
    C: Clock + Send,
    G: Gate + Sync,
    Q: SqlEngine + Sync,
>(
    rt: &R,
    alloc: Global,
    words: &[String],
    hash: &H,
    engine: &Q,
    source: &mut S,
    sink: &mut K,
    disk: D,
    keeper: &mut P,
    clock: C,
    gate: &G,
) -> Done<D, C>
    // `run`, done: there is one history, which begins with the one that the disk was found with and for which its files now stand, whatever a crash does
    // to them. After each of its transactions the keys that begin with octet 00 are SQL's. The octets written are one reply for each line, in the script's order: what that
    // history says of its line at the number before it, and of a statement that writes, by what it read at the number that its reply tells behind `read`. In a session no
    // number falls, nor does a statement read at fewer transactions than were told before it; none is below one of an earlier phase, and that of a `tx` is above each
    // before it; the lines that reply `tx` and the new transactions are one another's, by the number. Each of these was placed over a tree no smaller than its session, or one of an earlier phase, had linked; with one session and
    // no linker over just that. Cut at each LF the octets are one line for each reply, as `verify` reads them. Each line that is a message is accepted
    // by every client that keeps the header it is for, a state by one that keeps none too, and whose facts are facts of that history; that client
    // then keeps the header that the message leads to, and facts of the history still; every other line is passed over. In the files the new
    // transactions stand in batches of one or more, their values put over as many value logs as the words ask for. The disk got the opening's sync, the closing of
    // the gate where it was missing or cut off, and for each batch its writes, a sync, the octet at the gate, and a sync; no other call that changes
    // it. Each has the time that the clock gave for it: where the clock tells the times that it gave, it was asked once for each new transaction, in order, and
    // for nothing else.
    ensures report { (asks : AsksRun (map string_bytes words.now)) → result.status ≡ Status.Ok
        → WritesReport (H.digest hash.now) (C.constant clock) asks.0 asks.1 (S.left source.old) (D.told disk) (D.told result.disk) (C.given clock) (C.given result.clock) (K.written sink.old) (K.written sink.new)
        (K.faults sink.old) (K.faults sink.new) }

    // Where the sink failed, what was written is a front part of the report, not all of it, of the phases that were run: they were answered whole, and no
    // further one was begun. Where the disk failed or memory ran out at a line, that line has no reply and its session ended there; the others of its
    // phase went on, no further phase was run, and the replies before the first such line were told, as far as the sink took them: that line decides the status.
    // What the disk stands for has all that was told; each further transaction is that of a line without a written reply, a different one for each. The disk
    // got a front part of the last batch's calls, and then the one that failed, if one did. Else neither the sink nor the clock was touched, and a
    // disk that was found with a history got the calls of opening as far as they came. A source without a script of the
    // grammar has neither sink, clock nor disk touched.
    ensures part { (asks : AsksRun (map string_bytes words.now)) → result.status ≡ Status.WriteFault
        → WritesPart (H.digest hash.now) (C.constant clock) asks.0 asks.1 (S.left source.old) (D.told disk) (D.told result.disk) (C.given clock) (C.given result.clock) (K.written sink.old) (K.written sink.new)
        (K.faults sink.old) (K.faults sink.new) }
    ensures front { (why : Why) (asks : AsksRun (map string_bytes words.now)) → result.status ≡ status_for why
        → ((sink.new ≡ sink.old) × ((result.clock ≡ clock) × LeavesFound (H.digest hash.now) why (D.told disk) (D.told result.disk)))
        ⊎ WritesFront (H.digest hash.now) (C.constant clock) asks.0 asks.1 why (S.left source.old) (D.told disk) (D.told result.disk) (C.given clock) (C.given result.clock)
        (K.written sink.old) (K.written sink.new) (K.faults sink.old) (K.faults sink.new) }
    ensures given { AsksRun (map string_bytes words.now) → EndsGiven result.status → GivesScript (S.left source.old) (S.left source.new) }
    ensures unread { AsksRun (map string_bytes words.now) → IfSome (S.left source.old) (λ script. ((phases : List (List Line)) → IsGiven script phases → ⊥)
        → (sink.new ≡ sink.old) × ((result.clock ≡ clock) × (result.disk ≡ disk))) }
    ensures nothing { AsksRun (map string_bytes words.now) → (EndsReading result.status × (result.status ≡ Status.Memory → ⊥)) ⊎ (((d : Damage) × (result.status ≡ Status.Damaged d)) ⊎ ((tx : ℕ) × (result.status ≡ Status.SqlKept tx))) → sink.new ≡ sink.old }

    // Where the keys that begin with octet 00 of what was found aren't SQL's after each transaction, the first after which they aren't is told, and nothing was run: the
    // disk got the calls of opening alone, and each image stands for what was found.
    ensures not_kept { (tx : ℕ) → result.status ≡ Status.SqlKept tx → FindsUnkept (H.digest hash.now) (D.told disk) (D.told result.disk) tx }

    // At every moment of the call, once the first sync has succeeded, each image that a crash may leave of a disk that
    // was found with a history stands for one that begins with it. Before that nothing else is done to a disk. Files
    // that stand for no history are told by the first check of them that fails, and only synced.
    ensures any_moment { (t : Told) (found : List Transaction) → D.told disk ≡ Some t → Stands (H.digest hash.now) (seen t) found
        → KeepsFound (H.digest hash.now) found t (D.told result.disk) }
    ensures unharmed { (t : Told) → D.told disk ≡ Some t → ((found : List Transaction) → Stands (H.digest hash.now) (seen t) found → ⊥)
        → SyncsAtMost t (D.told result.disk) }
    ensures damaged { (damage : Damage) → result.status ≡ Status.Damaged damage → IfSome (D.told disk) (λ t.
        (first_fail (image_checks (H.digest hash.now) (seen t)) ≡ Err damage) × (D.told result.disk ≡ Some (after Synced t))) }
    ensures sound { (damage : Damage) (t : Told) (found : List Transaction) → D.told disk ≡ Some t → Stands (H.digest hash.now) (seen t) found
        → result.status ≡ Status.Damaged damage → ⊥ }

    // At every end the disk that comes back tells the calls that it was handed in with, and others behind them.
    ensures grows { Grows (D.told disk) (D.told result.disk) }

    // The script is at fault, at its first line that isn't in the grammar.
    ensures script { (k : ℕ) → result.status ≡ Status.Script k → IfSome (S.left source.old) (λ script.
        (length script ≤ 67108864) × ((n : ℕ) × (k ≡ n + 1) × StopsAfter script n)) }

    // `verify`, done: the octets written tell what became of each line of the stream, behind the kept lines,
    // and the text of each accepted message is kept. No line was forked, and some was refused exactly at `Refused`. Of a
    // source or a keeper that doesn't tell what it holds this is said of some stream and some lines.
    ensures accepted { AsksVerify (map string_bytes words.now) → result.status ≡ Status.Ok →
        Verifies (H.digest hash.now) ended.Ok (S.left source.old) (K.written sink.old) (K.written sink.new) (P.kept keeper.old) (P.kept keeper.new) }
    ensures some_refused { AsksVerify (map string_bytes words.now) → result.status ≡ Status.Refused →
        Verifies (H.digest hash.now) ended.Refused (S.left source.old) (K.written sink.old) (K.written sink.new) (P.kept keeper.old) (P.kept keeper.new) }

    // Forked: the lines up to the first fork were told, and that one with two unequal strings of one digest, both among those
    // hashed in checking what was accepted before it and that line.
    ensures some_forked { AsksVerify (map string_bytes words.now) → result.status ≡ Status.Forked →
        Verifies (H.digest hash.now) ended.Forked (S.left source.old) (K.written sink.old) (K.written sink.new) (P.kept keeper.old) (P.kept keeper.new) }

    // Where the sink failed, the first lines were told, and the next one in part, never whole; the accepted messages of
    // them all are kept. Where memory ran out, nothing was done, or the first lines were told and kept. Where the keeper
    // failed, nothing was done, or they were, before one that is accepted, of which nothing was told or kept. Else nothing
    // was done, nor with a stream past the limit, at any end. Where the source failed or is past the limit, the keeper is
    // as it was.
    ensures into { AsksVerify (map string_bytes words.now) → result.status ≡ Status.WriteFault →
        BreaksInto (H.digest hash.now) (S.left source.old) (K.written sink.old) (K.written sink.new) (P.kept keeper.old) (P.kept keeper.new) }
    ensures off { AsksVerify (map string_bytes words.now) → result.status ≡ Status.Memory →
        ((K.written sink.new ≡ K.written sink.old) × (P.kept keeper.new ≡ P.kept keeper.old))
        ⊎ BreaksOff (H.digest hash.now) (S.left source.old) (K.written sink.old) (K.written sink.new) (P.kept keeper.old) (P.kept keeper.new) }
    ensures fault { AsksVerify (map string_bytes words.now) → result.status ≡ Status.KeeperFault →
        ((K.written sink.new ≡ K.written sink.old) × (P.kept keeper.new ≡ P.kept keeper.old))
        ⊎ BreaksAt (H.digest hash.now) (S.left source.old) (K.written sink.old) (K.written sink.new) (P.kept keeper.old) (P.kept keeper.new) }
    ensures too_long { AsksVerify (map string_bytes words.now) → IfSome (S.left source.old) (λ stream. 67108864 < length stream → (sink.new ≡ sink.old) × (keeper.new ≡ keeper.old)) }
    ensures no_verdict { AsksVerify (map string_bytes words.now) → (result.status ≡ Status.ReadFault) ⊎ ((result.status ≡ Status.Long) ⊎ ((k : ℕ) × (result.status ≡ Status.Kept k))) →
        (sink.new ≡ sink.old) × (P.kept keeper.new ≡ P.kept keeper.old) }
    ensures verify_idle { AsksVerify (map string_bytes words.now) → (result.status ≡ Status.ReadFault) ⊎ (result.status ≡ Status.Long) → keeper.new ≡ keeper.old }

    // `show`: what the kept lines lead to was written, or a front part of it where the sink failed; else nothing was. The
    // kept lines stay, and the source, the disk and the clock aren't touched.
    ensures shows { AsksShow (map string_bytes words.now) → result.status ≡ Status.Ok →
        Shows (H.digest hash.now) (P.kept keeper.old) (K.written sink.old) (K.written sink.new) }
    ensures shows_part { AsksShow (map string_bytes words.now) → result.status ≡ Status.WriteFault →
        ShowsPart (H.digest hash.now) (P.kept keeper.old) (K.written sink.old) (K.written sink.new) }
    ensures shows_nothing { AsksShow (map string_bytes words.now) → (result.status ≡ Status.KeeperFault) ⊎ ((result.status ≡ Status.Memory) ⊎ ((k : ℕ) × (result.status ≡ Status.Kept k))) →
        sink.new ≡ sink.old }
    ensures show_keeps { AsksShow (map string_bytes words.now) → P.kept keeper.new ≡ P.kept keeper.old }
    ensures show_idle { AsksShow (map string_bytes words.now) → (source.new ≡ source.old) × ((result.disk ≡ disk) × (result.clock ≡ clock)) }

    // `gen N`, done: exactly its line was written. It tells of the script of N lines, with the Alh of the last transaction
    // of the history to which this leads at time 0; as many transactions as it says are in that history, and as many lines
    // as it says of the script's report were accepted by a client. Where the sink failed a front part of it was written, and
    // where memory ran out nothing. The source, the keeper, the disk and the clock aren't touched.
    ensures generated { (asks : AsksGen (map string_bytes words.now)) → result.status ≡ Status.Ok →
        WritesGenerated (H.digest hash.now) asks.0 (K.written sink.old) (K.written sink.new) }
    ensures generated_part { (asks : AsksGen (map string_bytes words.now)) → result.status ≡ Status.WriteFault →
        WritesGeneratedPart (H.digest hash.now) asks.0 (K.written sink.old) (K.written sink.new) }
    ensures generated_nothing { AsksGen (map string_bytes words.now) → result.status ≡ Status.Memory → sink.new ≡ sink.old }
    ensures generated_idle { AsksGen (map string_bytes words.now) → (source.new ≡ source.old) × ((keeper.new ≡ keeper.old) × ((result.disk ≡ disk) × (result.clock ≡ clock))) }

    // The first kept line that fails a check or is forked, of `verify` and of `show`.
    ensures kept { (k : ℕ) → result.status ≡ Status.Kept k → StopsHeld (H.digest hash.now) (P.kept keeper.old) k }

    // At these ends of a run and of `verify`, and at those of `given`, the source was read to its end.
    ensures emptied { AsksRun (map string_bytes words.now) ⊎ AsksVerify (map string_bytes words.now) → (result.status ≡ Status.Ok) ⊎ ((result.status ≡ Status.WriteFault) ⊎ ((result.status ≡ Status.KeeperFault) ⊎ ((result.status ≡ Status.Refused) ⊎ ((result.status ≡ Status.Forked) ⊎ ((k : ℕ) × (result.status ≡ Status.Kept k)))))) →
        IfSome (S.left source.old) (λ _. S.left source.new ≡ Some []) }
    ensures long { result.status ≡ Status.Long → IfSome (S.left source.old) (λ octets. 67108864 < length octets) }

    // At every end a front part of the source was taken, at most one take (4096 octets) past the limit.
    ensures taken { TakesAtMost 67112960 (S.left source.old) (S.left source.new) }

    // The words are at fault just where `clap` refuses them, and then nothing is touched. Those of the forms
    // `NAME run [--logs 1..4] [--link auto|manual]`, the options in any order, `NAME verify`, `NAME show` and `NAME gen N`
    // never are: the first ask for a run with the number of logs and the link that they write, the others for `verify`, for
    // `show` and for the script of N lines.
    ensures usage { result.status ≡ Status.Usage → AreWordsRefused (map string_bytes words.now) }
    ensures form { (logs : ℕ) (link : Link) → IsForm (map string_bytes words.now) logs link
        → (result.status ≡ Status.Usage → ⊥) × ((asks : AsksRun (map string_bytes words.now)) × (asks.0 ≡ logs) × (asks.1 ≡ link)) }
    ensures verify_form { IsVerifyForm (map string_bytes words.now) → (result.status ≡ Status.Usage → ⊥) × AsksVerify (map string_bytes words.now) }
    ensures show_form { IsShowForm (map string_bytes words.now) → (result.status ≡ Status.Usage → ⊥) × AsksShow (map string_bytes words.now) }
    ensures gen_form { (n : ℕ) → IsGenForm (map string_bytes words.now) n
        → (result.status ≡ Status.Usage → ⊥) × ((asks : AsksGen (map string_bytes words.now)) × (asks.0 ≡ n)) }
    ensures refused { AreWordsRefused (map string_bytes words.now) → (result.status ≡ Status.Usage) ⊎ (result.status ≡ Status.Memory) }
    ensures untouched { AreWordsRefused (map string_bytes words.now) → (source.new ≡ source.old) × ((sink.new ≡ sink.old) × ((keeper.new ≡ keeper.old) × ((result.disk ≡ disk) × (result.clock ≡ clock)))) }

    // Else the words ask for one of the four, which ends in its own ways.
    ensures asked { (result.status ≡ Status.Usage → ⊥) → (result.status ≡ Status.Memory → ⊥) → AsksRun (map string_bytes words.now) ⊎ AsksVerify (map string_bytes words.now) ⊎ AsksShow (map string_bytes words.now) ⊎ AsksGen (map string_bytes words.now) }
    ensures ends_run { AsksRun (map string_bytes words.now) → EndsRun result.status }
    ensures ends_verify { AsksVerify (map string_bytes words.now) → EndsVerify result.status }
    ensures ends_show { AsksShow (map string_bytes words.now) → EndsShow result.status }
    ensures ends_gen { AsksGen (map string_bytes words.now) → EndsGenerated result.status }

    // A fault of the source, the sink, the disk or the keeper comes only where its count rose. Else no count rises, but
    // for the sink's where a line of a script got no reply: the lines before it are told as far as the sink takes them; and the disk's where memory
    // ran out at the first line without a reply: it may have failed at a later one, of another session.
    ensures read { result.status ≡ Status.ReadFault → Rose (S.faults source.old) (S.faults source.new) }
    ensures write { result.status ≡ Status.WriteFault → Rose (K.faults sink.old) (K.faults sink.new) }
    ensures device { result.status ≡ Status.DiskFault → Rose (D.faults disk) (D.faults result.disk) }
    ensures keep { result.status ≡ Status.KeeperFault → Rose (P.faults keeper.old) (P.faults keeper.new) }
    ensures source_count { (result.status ≡ Status.ReadFault → ⊥) → S.faults source.new ≡ S.faults source.old }
    ensures sink_count { (result.status ≡ Status.WriteFault → ⊥) → (AsksRun (map string_bytes words.now) → (result.status ≡ Status.DiskFault → ⊥) × (result.status ≡ Status.Memory → ⊥))
        → K.faults sink.new ≡ K.faults sink.old }
    ensures disk_count { (result.status ≡ Status.DiskFault → ⊥) → (AsksRun (map string_bytes words.now) → result.status ≡ Status.Memory → ⊥) → D.faults result.disk ≡ D.faults disk }
    ensures disk_alone { AsksRun (map string_bytes words.now) → result.status ≡ Status.Memory → IfSome (S.left source.old) (λ script. (phases : List (List Line)) → IsGiven script phases
        → HasOneSession phases → D.faults result.disk ≡ D.faults disk) }
    ensures keeper_count { (result.status ≡ Status.KeeperFault → ⊥) → P.faults keeper.new ≡ P.faults keeper.old }
    // At no end did the count of the source, the sink or the keeper rise by more than one.
    ensures source_once { S.faults source.new ≤ S.faults source.old + 1 }
    ensures sink_once { K.faults sink.new ≤ K.faults sink.old + 1 }
    ensures keeper_once { P.faults keeper.new ≤ P.faults keeper.old + 1 }

    // Words that `clap` takes, and no fault: what the source, the disk and the keeper hold decides, or memory is wanted.
    // A script of the grammar within the limit is run over files that stand for a history whose keys that begin with octet 00 are SQL's, another stops at its first
    // bad line, and one too long is refused. A stream within the limit is told behind kept lines that pass, and else
    // stops at the first that doesn't.
    ensures complete { (AreWordsRefused (map string_bytes words.now) → ⊥) → AsksRun (map string_bytes words.now)
        → (Rose (S.faults source.old) (S.faults source.new) → ⊥) → (Rose (K.faults sink.old) (K.faults sink.new) → ⊥)
        → (Rose (D.faults disk) (D.faults result.disk) → ⊥)
        → IfSome (S.left source.old) (HasRunFate (H.digest hash.now) (D.told disk) result.status) }
    ensures verdict { (AreWordsRefused (map string_bytes words.now) → ⊥) → AsksVerify (map string_bytes words.now)
        → (Rose (S.faults source.old) (S.faults source.new) → ⊥) → (Rose (K.faults sink.old) (K.faults sink.new) → ⊥)
        → (Rose (P.faults keeper.old) (P.faults keeper.new) → ⊥)
        → IfSome (S.left source.old) (λ stream. IfSome (P.kept keeper.old) (HasVerdict (H.digest hash.now) result.status stream)) }

    ensures show { (AreWordsRefused (map string_bytes words.now) → ⊥) → AsksShow (map string_bytes words.now)
        → (Rose (K.faults sink.old) (K.faults sink.new) → ⊥) → (Rose (P.faults keeper.old) (P.faults keeper.new) → ⊥)
        → IfSome (P.kept keeper.old) (HasShow (H.digest hash.now) result.status) }

    // `verify` leaves the disk as it was handed in, and so does a script that wasn't read, want of memory aside, and `show`
    // and `gen`, of which `show_idle` and `generated_idle` say it; a run leaves the keeper. The clock comes back as one that
    // gives the same constant.
    ensures disk { AsksVerify (map string_bytes words.now) ⊎ (EndsReading result.status × (result.status ≡ Status.Memory → ⊥)) → result.disk ≡ disk }
    ensures keeper { AsksRun (map string_bytes words.now) → keeper.new ≡ keeper.old }
    ensures clock { C.constant result.clock ≡ C.constant clock }

    // The clock comes back as it was from `verify`, from a script that wasn't read, and from a disk whose files are
    // damaged, or whose keys aren't SQL's; from `show` and `gen` too, by `show_idle` and `generated_idle`.
    ensures idle { AsksVerify (map string_bytes words.now) ⊎ ((EndsReading result.status × (result.status ≡ Status.Memory → ⊥)) ⊎ (((d : Damage) × (result.status ≡ Status.Damaged d)) ⊎ ((tx : ℕ) × (result.status ≡ Status.SqlKept tx)))) → result.clock ≡ clock }
{
    match read_words(alloc, words) {
        Ok(Request::Run { logs, link }) => run(
            rt, alloc, hash, gate, engine, source, sink, disk, clock, logs, link,
        ),
        Ok(Request::Verify) => {
            let status = verdict(alloc, hash, source, sink, keeper);
            Done {
                status,
                disk,
                clock,
            }
        }
        Ok(Request::Show) => {
            let status = shown(alloc, hash, sink, keeper);
            Done {
                status,
                disk,
                clock,
            }
        }
        Ok(Request::Gen { lines }) => {
            let status = generate(rt, alloc, hash, engine, sink, u64::from(lines));
            Done {
                status,
                disk,
                clock,
            }
        }
        Err(WordsError::Usage) => Done {
            status: Status::Usage,
            disk,
            clock,
        },
        Err(WordsError::Memory) => Done {
            status: Status::Memory,
            disk,
            clock,
        },
    }
}
