//! The law of kin. The function does nothing: its contract is the law.

ghost use Rattle.si_kin.specs.Kin.{KinStayUnresolved};

/// A conflict between states that input events join, each in either direction, is never resolved.
pub fn kin_stay_unresolved()
    ensures { KinStayUnresolved }
{}
