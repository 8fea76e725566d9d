//! Laws of filters as texts, each the contract of an empty function.
ghost use Rattle.task_filters.specs.Laws.{FilterAgain, OnlyFilter};

/// The canonical text of a filter is read as that filter.
pub fn filter_again()
    ensures { FilterAgain }
{}

/// No other canonical text is.
pub fn only_filter()
    ensures { OnlyFilter }
{}
