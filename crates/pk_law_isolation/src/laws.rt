//! The laws of namespaces.
ghost use Rattle.pk_law_isolation.specs.Isolation.{Isolated, Fixed, SameReplies};
ghost use Rattle.pk_law_isolation.specs.Parts.{AnsweredInParts};
ghost use Rattle.pk_law_isolation.specs.Sums.{WithinSum, FirstIsPart};

/// Of any run, the commands in one namespace are a run of a drive that has this namespace alone, with the same replies.
pub fn isolation()
    ensures { Isolated }
{}

/// The commands of a run without read errors, and the map before it, fix its replies but for a Report's numbers of the drive's own.
pub fn answers_are_fixed()
    ensures { Fixed }
{}

/// Without read errors, the replies to the commands of one namespace are those of every run of a drive that has this namespace alone, but for a
/// Report's numbers of the drive's own.
pub fn same_replies()
    ensures { SameReplies }
{}

/// What is answered on the one map is what is answered on the list of the maps of its namespaces, one of them changed.
pub fn answer_in_parts()
    ensures { AnsweredInParts }
{}

/// Namespaces that keep within their limits keep together within the sum of these.
pub fn within_sum()
    ensures { WithinSum }
{}

/// What a port of the first namespace sees of a map is that part of it.
pub fn first_is_part()
    ensures { FirstIsPart }
{}
