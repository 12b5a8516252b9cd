ghost use Rattle.ipc_session.specs.Laws.{AnswersDetermine};

/// What was heard and what the kernel port answered determine all its calls, and where the
/// connection then stands. So two runs of [`read_loop`](crate::read_loop) over the same bytes with
/// the same answers make the same calls, however the bytes come.
pub fn answers_determine()
    ensures { AnswersDetermine }
{}
