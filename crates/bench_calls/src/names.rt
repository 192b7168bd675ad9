//! The calls, by name.

/// A call that is made again and again, or two that belong together.
#[derive(Clone, Copy)]
pub(crate) enum Call {
    /// `lock` and `unlock` of a head.
    Lock,
    /// `wake` at a head with nobody queued.
    Wake,
    /// `set_and_wake` with nobody queued.
    SetAndWake,
    /// `wait_event` for a condition that is set.
    WaitMet,
    /// `wait_event` for a condition that is not set, with a signal pending that ends it.
    WaitSignalled,
    /// `prepare_to_wait` and `finish_wait`.
    Prepare,
    /// `swait_event` for a condition that is set.
    SwaitMet,
    /// `swake_one` with nobody queued.
    Swake,
    /// `complete` with nobody queued.
    Complete,
    /// `complete`, and `wait_for`, which takes it.
    CompleteWait,
    /// `complete`, and `try_wait`, which takes it.
    CompleteTry,
    /// `test_and_set` and `clear_and_wake_bit`.
    Bit,
    /// `wait_on_bit` for a bit that is clear.
    BitClear,
    /// `wait_on_bit` for a bit that is set, with a signal pending that ends it.
    BitSignalled,
    /// `wait_on_bit_lock` of a bit that is clear, and `clear_and_wake_bit`.
    BitLock,
    /// `lock_page` and `unlock_page`.
    Page,
    /// `publish_var_and_wake` with nobody queued.
    Publish,
    /// `wait_var` for a variable that has another value.
    VarMet,
    /// `write_piece` and `read_piece` of seven bytes.
    Piece,
}

/// All of them.
pub(crate) const ALL: [Call; 19] = [
    Call::Lock,
    Call::Wake,
    Call::SetAndWake,
    Call::WaitMet,
    Call::WaitSignalled,
    Call::Prepare,
    Call::SwaitMet,
    Call::Swake,
    Call::Complete,
    Call::CompleteWait,
    Call::CompleteTry,
    Call::Bit,
    Call::BitClear,
    Call::BitSignalled,
    Call::BitLock,
    Call::Page,
    Call::Publish,
    Call::VarMet,
    Call::Piece,
];

impl Call {
    /// Its name.
    pub(crate) fn name(self) -> &'static str {
        match self {
            Call::Lock => "lock",
            Call::Wake => "wake",
            Call::SetAndWake => "set_and_wake",
            Call::WaitMet => "wait_event_met",
            Call::WaitSignalled => "wait_event_signalled",
            Call::Prepare => "prepare_and_finish",
            Call::SwaitMet => "swait_event_met",
            Call::Swake => "swake_one",
            Call::Complete => "complete",
            Call::CompleteWait => "complete_and_wait_for",
            Call::CompleteTry => "complete_and_try_wait",
            Call::Bit => "set_and_clear_bit",
            Call::BitClear => "wait_on_bit_clear",
            Call::BitSignalled => "wait_on_bit_signalled",
            Call::BitLock => "wait_on_bit_lock",
            Call::Page => "lock_page",
            Call::Publish => "publish_var_and_wake",
            Call::VarMet => "wait_var_met",
            Call::Piece => "write_and_read_piece",
        }
    }
}
