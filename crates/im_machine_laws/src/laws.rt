//! What holds of every run of the machine. Each function does nothing, and its contract is the law.

ghost use Rattle.std.specs.Prelude.{◌≡◌, ◌<◌, ◌≤◌, ℕ, List, ◌∷◌, ◌++◌, length, take, All, Some, true, false};
ghost use Rattle.im_machine.specs.Allowed.{Allows};
ghost use Rattle.im_machine.specs.Machines.{start, Machine};
ghost use Rattle.im_machine.specs.Runs.{Run};
ghost use Rattle.im_machine.specs.Steps.{Does, Steps};
ghost use Rattle.im_machine.specs.declared.events.Event.{Event as TheEvent};
ghost use Rattle.im_machine.specs.declared.events.Event.TheVariants as on;
ghost use Rattle.im_machine.specs.declared.outputs.Output.{Output as TheOutput};
ghost use Rattle.im_machine.specs.declared.outputs.Output.TheVariants as tells;
ghost use Rattle.im_machine_laws.specs.Events.{IsEvent};
ghost use Rattle.im_machine_laws.specs.Gates.{IsUngated};
ghost use Rattle.im_digest.specs.Digests.{GivesDigests, Hash};
ghost use Rattle.im_machine_laws.specs.Reached.{IsReached};
ghost use Rattle.im_disk.specs.Disk.{seen, Files, Images};
ghost use Rattle.im_disk.specs.Moments.{Leaves};
ghost use Rattle.im_format.specs.Standing.{Stands, StandsFrom};
ghost use Rattle.im_model.specs.History.{header_of, IsHistory};
ghost use Rattle.im_model.specs.declared.headers.Header.{Header as TheHeader};
ghost use Rattle.im_model.specs.declared.transactions.Transaction.{Transaction as TheTransaction};

/// A header that was acknowledged is that of a durable transaction, and of every later history, behind any number of crashes; and of
/// the history that each image stands for which a crash may leave from then on.
pub fn what_is_acknowledged_stays()
    ensures placed { (hash : Hash) (before behind : List TheEvent) (told answered : List TheOutput) (session number : ℕ) (header : TheHeader) (end : Machine)
        → GivesDigests hash → All IsEvent (before ++ on.Ack session number ∷ behind) → length told ≡ length before
        → Run hash start (before ++ on.Ack session number ∷ behind) (told ++ tells.Header header ∷ answered) end
        → (1 ≤ number) × (number ≤ end.durable) × (header ≡ header_of hash end.placed number) }
    ensures on_disk { (hash : Hash) (before behind : List TheEvent) (told answered : List TheOutput) (session number : ℕ) (header : TheHeader) (end : Machine) (image : Files)
        → GivesDigests hash → All IsEvent (before ++ on.Ack session number ∷ behind) → length told ≡ length before
        → Run hash start (before ++ on.Ack session number ∷ behind) (told ++ tells.Header header ∷ answered) end → Images end.disk image
        → (history : List TheTransaction) × Stands hash image history × (number ≤ length history) × (header ≡ header_of hash history number) }
{}

/// Each image that a crash may leave stands for a front part of the placed history that holds all that is durable; and so does each
/// image of each moment within a step, before and behind every call of the disk.
pub fn each_image_holds_what_is_durable()
    ensures now { (hash : Hash) (m : Machine) (image : Files) → GivesDigests hash → IsReached hash m → Images m.disk image → StandsFrom hash m.durable m.placed image }
    ensures at_every_moment { (hash : Hash) (m next : Machine) (event : TheEvent) (output : TheOutput) → GivesDigests hash → IsReached hash m → IsEvent event
        → Steps hash m event output next → ((image : List (List ℕ)) → event ≡ on.Crash image → ⊥)
        → Leaves (StandsFrom hash m.durable next.placed) (Some m.disk) (Some next.disk) }
{}

/// Behind a crash the files stand for a front part of the history that was placed, which holds all that was durable; so opening is
/// allowed, and it gives that front part.
pub fn a_crash_can_be_opened()
    ensures allowed { (hash : Hash) (m : Machine) → GivesDigests hash → IsReached hash m → m.up ≡ false → (history : List TheTransaction) × Stands hash (seen m.disk) history }
    ensures opened { (hash : Hash) (m next : Machine) (number : ℕ) → GivesDigests hash → IsReached hash m → Steps hash m on.Open (tells.Opened number) next
        → (m.durable ≤ number) × (number ≤ length m.placed) × (next.placed ≡ take number m.placed) × (next.durable ≡ number) }
    // At every moment of it, too, each image stands for just what is opened.
    ensures at_every_moment { (hash : Hash) (m next : Machine) (number : ℕ) → GivesDigests hash → IsReached hash m → Steps hash m on.Open (tells.Opened number) next
        → Leaves (λ image. Stands hash image next.placed) (Some m.disk) (Some next.disk) }
{}

/// While the machine is up, its disk may be called and the gate of a batch isn't written, each image stands for what is durable and for
/// no more; so an opening behind a crash then gives just that.
pub fn a_closed_gate_keeps_its_batch_out()
    ensures images { (hash : Hash) (m : Machine) (image : Files) → GivesDigests hash → IsReached hash m → m.up ≡ true → m.stopped ≡ false → IsUngated m m.progress → Images m.disk image
        → Stands hash image (take m.durable m.placed) }
    ensures opened { (hash : Hash) (m down next : Machine) (image : List (List ℕ)) (number : ℕ) → GivesDigests hash → IsReached hash m → m.up ≡ true → m.stopped ≡ false → IsUngated m m.progress
        → Steps hash m (on.Crash image) tells.Done down → Steps hash down on.Open (tells.Opened number) next → number ≡ m.durable }
{}

/// What is placed is a history; what is linked and what is indexed is durable, and what is durable is placed. What a session was told
/// is durable.
pub fn numbers_keep_their_order()
    ensures { (hash : Hash) (m : Machine) (session : ℕ) → GivesDigests hash → IsReached hash m
        → IsHistory m.placed × (m.linked ≤ m.durable) × (m.indexed ≤ m.durable) × (m.durable ≤ length m.placed) × (m.sessions session ≤ m.durable) }
{}

/// What is durable never becomes less, behind crashes too, and the first transactions that are durable stay what they are.
pub fn what_is_durable_stays()
    ensures { (hash : Hash) (m next : Machine) (event : TheEvent) (output : TheOutput) → GivesDigests hash → IsReached hash m → Steps hash m event output next
        → (m.durable ≤ next.durable) × (take m.durable next.placed ≡ take m.durable m.placed) }
{}

/// Nothing becomes durable but by the last sync of a batch, and by an opening: an acknowledgement before that sync isn't allowed.
pub fn only_a_settled_batch_is_durable()
    ensures same { (hash : Hash) (m next : Machine) (event : TheEvent) (output : TheOutput) → Steps hash m event output next
        → (event ≡ on.Settle false → ⊥) → (event ≡ on.Open → ⊥) → next.durable ≡ m.durable }
    ensures unacknowledged { (hash : Hash) (m : Machine) (session number : ℕ) → m.durable < number → Allows hash m (on.Ack session number) → ⊥ }
{}

/// An event that is allowed where it stands has an answer, and a machine behind it: no case of the step is empty.
pub fn an_allowed_event_is_answered()
    ensures { (hash : Hash) (m : Machine) (event : TheEvent) → GivesDigests hash → IsReached hash m → Allows hash m event
        → (output : TheOutput) × (next : Machine) × Does hash m event output next }
{}

/// And each event has one: a batch's records, the batches that files stand by and what is shown of keys are each one.
pub fn one_answer()
    ensures { (hash : Hash) (m one other : Machine) (event : TheEvent) (told told_too : TheOutput) → GivesDigests hash
        → Steps hash m event told one → Steps hash m event told_too other → (told ≡ told_too) × (one ≡ other) }
{}
