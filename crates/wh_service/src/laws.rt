//! What holds of every service, each law as the contract of a function that does nothing.

ghost use Rattle.wh_service.specs.Laws.{AreAssignedInOrder, EachGoesToItsWorker, NothingElseIsAssigned};
ghost use Rattle.wh_service.specs.Laws.{AsManyRowsAsFiles, EachFailureIsReported, EachRowIsOfItsFile};
ghost use Rattle.wh_service.specs.Laws.{NoOtherFailureIsReported};

/// Each history that can be read goes to one worker, and to no other: to the one whose turn its
/// file is. A worker has its histories in the order of their files, and each once.
pub fn each_history_goes_to_one_worker()
    ensures own { EachGoesToItsWorker }
    ensures others { NothingElseIsAssigned }
    ensures order { AreAssignedInOrder }
{}

/// The report has a row for each file, in their order, by the source of the worker whose turn the
/// file is. A failed task is reported exactly when that source has it.
pub fn each_row_is_of_its_file()
    ensures rows { EachRowIsOfItsFile }
    ensures count { AsManyRowsAsFiles }
    ensures failures { EachFailureIsReported }
    ensures others { NoOtherFailureIsReported }
{}
