//! Laws of the definitions, each a function without parameters whose contract is the law.

ghost use Rattle.linear_cert.specs.Laws.{RightIsSound};

/// A right certificate is sound: no whole numbers solve what it is right for.
pub fn law_sound()
    ensures { RightIsSound }
{}
