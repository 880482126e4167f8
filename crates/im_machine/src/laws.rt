//! What holds of the machine. Each function does nothing, and its contract is the law.

ghost use Rattle.im_machine.specs.Machines.{blank, start};
ghost use Rattle.im_machine.specs.Steps.{Steps};
ghost use Rattle.im_machine.specs.declared.events.Event.TheVariants as on;
ghost use Rattle.im_machine.specs.declared.outputs.Output.TheVariants as tells;
ghost use Rattle.im_digest.specs.Digests.{Hash};

/// The machine begins as behind the opening of empty files.
pub fn it_begins_as_behind_opening()
    ensures { (hash : Hash) → Steps hash blank on.Open (tells.Opened 0) start }
{}
