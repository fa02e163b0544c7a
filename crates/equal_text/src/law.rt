// Laws of the definitions.
ghost use Rattle.equal_text.specs.Lists.{ListFits};
ghost use Rattle.equal_text.specs.Texts.{CertifiedIsRead, CertifiedIsShort};

/// The text of a complex and of a certificate of an equivalence behind it is read again, where both keep
/// the limits of texts.
pub fn certificate_is_read()
    ensures { CertifiedIsRead }
{}

/// Such a text has at most 268,435,456 bytes where there are at most 5,040,000 flips with at most eight
/// labels each, and at most 5,121 pairs.
pub fn certificate_is_short()
    ensures { CertifiedIsShort }
{}

/// The flips that two reports tell by a map from the one end to the other, and the pairs of the map that
/// is then left, keep the limits of the text of a certificate, and are so few.
pub fn list_fits()
    ensures { ListFits }
{}
