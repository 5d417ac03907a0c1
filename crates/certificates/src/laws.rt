// What the checker says of a certificate, the contract of a function that does nothing.
ghost use Rattle.certificates.specs.Accepted.{CertifiedIsAccepted};

/// What is certified is accepted by the checker: it says yes, or that it has no room for a row's values.
pub fn certified_is_accepted()
    ensures { CertifiedIsAccepted }
{}
