// What is to be shown of domains as text, each theorem held by a named clause of a function that does nothing.
ghost use Rattle.bmap.specs.Theorems.{DomainLinesReturn, DomainReturns, DomainTextFits};

// Lines that were read and written again, a domain that was written and read again, and the longest text.
pub fn texts()
    ensures lines_return { DomainLinesReturn }
    ensures returns { DomainReturns }
    ensures fits { DomainTextFits }
{}
