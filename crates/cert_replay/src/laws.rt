ghost use Rattle.cert_replay.specs.Answers.{AnswerIsOne};

/// What a certificate is answered is determined: of a complex and a certificate there is one answer
/// at most.
pub fn answer_law()
    ensures { AnswerIsOne }
{}
