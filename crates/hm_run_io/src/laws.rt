//! Worked examples. Each is a function with an empty body, whose contract is the example.
ghost use Rattle.hm_run_io.specs.Worked.{ReadersRow, WriterRow};

/// What a run did with a reader and with a writer, and what no run did.
pub fn worked_devices()
    ensures readers { ReadersRow }
    ensures writer { WriterRow }
{}
