//! What holds of entries that their tasks have left queued.

ghost use Rattle.order_laws.specs.TakenOff.{LeftEntriesStand, StepsTakeOffWoken};

/// Where entries of others are taken off only in holds that have left their tasks RUNNING, an entry that its task left
/// queued stands as long as that task was not woken (`stand`). The step that takes off another task's entry, at a head
/// that is no simple one and not for a page, asks for a hold that has done so (`steps`).
pub fn taken_off_woken()
    ensures stand { LeftEntriesStand }
    ensures steps { StepsTakeOffWoken }
{}
