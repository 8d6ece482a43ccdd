// The law of the texts of certificates.
ghost use Rattle.core_cert.specs.Laws.{CertTextsRead};

/// The law of certificates' texts: the text of a certificate that fits its case is read as this certificate. One that
/// refuses has no scenario weight, since its text has no record of one.
pub fn cert_text_law()
    ensures { CertTextsRead }
{}
