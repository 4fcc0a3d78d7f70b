//! What holds of exceptions that are known before a step, as laws.
ghost use Rattle.task_steps.specs.Laws.{OthersAskNoHandler, RaisedIsUnwound};

/// A step that is given an exception to raise is the unwinding of it.
pub fn raised_is_unwound()
    ensures { RaisedIsUnwound }
{}

/// A step that is given no exception to raise is the same whatever handlers there are.
pub fn others_ask_no_handler()
    ensures { OthersAskNoHandler }
{}
