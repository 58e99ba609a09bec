//! Theorems about tables and handles. Each is what a function here ensures.

ghost use Rattle.protocol.specs.Laws.{CoreAccepted, FewRefused, ManyRefused, MessagesRefused, EmptyNameRefused, LongNameRefused, ZeroNameRefused, ArgumentsRefused, NewIdsRefused, NoChildRefused, RequestArgsRefused, EventArgsRefused, ChildOutsideRefused, ArgOutsideRefused, CoreRefused, CoreFound, OutsideAnonymous, SameReflexive, SameSymmetric, SameTransitive};

/// The core interfaces alone make a table.
pub fn core_is_accepted()
    ensures { CoreAccepted }
{}

/// A list of interfaces that breaks a rule makes none: a clause for each rule.
pub fn damage_is_refused()
    ensures few { FewRefused }
    ensures many { ManyRefused }
    ensures messages { MessagesRefused }
    ensures empty_name { EmptyNameRefused }
    ensures long_name { LongNameRefused }
    ensures zero_name { ZeroNameRefused }
    ensures arguments { ArgumentsRefused }
    ensures new_ids { NewIdsRefused }
    ensures no_child { NoChildRefused }
    ensures request_args { RequestArgsRefused }
    ensures event_args { EventArgsRefused }
    ensures child_outside { ChildOutsideRefused }
    ensures arg_outside { ArgOutsideRefused }
    ensures core { CoreRefused }
{}

/// What a table keeps at the numbers 0 to 3, and what a number outside it reads as.
pub fn core_is_found()
    ensures inside { CoreFound }
    ensures outside { OutsideAnonymous }
{}

/// That two handles are the same is an equivalence.
pub fn handles_compare()
    ensures reflexive { SameReflexive }
    ensures symmetric { SameSymmetric }
    ensures transitive { SameTransitive }
{}
