//! What the texts of certificates are.
ghost use Rattle.bound_certificate.specs.Laws.{CertificateTextsAreOfOne, CertificateTextsHaveNoFault, CertificatesHaveOneText, LinesTellTheCertificate, PackedTextsAreOfOne, PackedTextsHaveNoFault, TextsAreOfOne, TextsHaveNoFault, TextsSayTheirCertificate};

/// What the texts of certificates are. A text has no fault exactly where it is that of a well-formed certificate; it is that of
/// one certificate alone, and a certificate has no other text; and the certificate that its lines say is that one. So what was
/// written is read as it was.
pub fn text_laws()
    ensures exact { TextsHaveNoFault }
    ensures one { TextsAreOfOne }
    ensures text { CertificatesHaveOneText }
    ensures said { TextsSayTheirCertificate }
{}

/// What the texts of packed certificates are, of versions 2 and 3. A text has no fault exactly where it is that of a well-formed packed certificate, and it
/// is that of one alone. So what was written is read as it was.
pub fn packed_text_laws()
    ensures exact { PackedTextsHaveNoFault }
    ensures one { PackedTextsAreOfOne }
{}

/// What the texts of certificates of each version are. Bytes have no fault exactly where they are a text of a certificate; they
/// are that of one alone; and the certificate that their lines tell is that one.
pub fn certificate_laws()
    ensures exact { CertificateTextsHaveNoFault }
    ensures one { CertificateTextsAreOfOne }
    ensures told { LinesTellTheCertificate }
{}
