// Theorems on dates, the contract of a function that computes nothing.
ghost use Rattle.calendar.specs.Laws.{CalendarLaws};

// Numbers and days give each other, and so do days and texts; the order of days is total.
pub fn calendar_laws()
    ensures { CalendarLaws }
{}
