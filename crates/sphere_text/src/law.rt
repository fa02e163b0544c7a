// Laws of the definitions.
ghost use Rattle.sphere_text.specs.Texts.{CertifiedIsRead, CertifiedIsShort};
ghost use Rattle.sphere_text.specs.Statements.{DescentIsShown, CycleIsDecided};

/// The text of a complex and of a certificate behind it is read again, where both keep the limits of texts. It has at most
/// 4,194,304 bytes where there are at most 20,000 flips.
pub fn certificate_is_read()
    ensures read { CertifiedIsRead }
    ensures short { CertifiedIsShort }
{}

/// The flips of a descent on the places of a complex, told in its labels, are a certificate of it where the descent ends in the
/// boundary of a simplex. They are no more than its facets, and keep the limits of the text of a certificate.
pub fn descent_is_shown()
    ensures { DescentIsShown }
{}

/// Closed and strongly connected complexes of dimension 1 are decided by descent.
pub fn cycle_is_decided()
    ensures { CycleIsDecided }
{}
