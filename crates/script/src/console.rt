// The loop of a bench program: bytes go in and answers out. It is a macro, since a public function here has a contract, and none could
// speak of what is read and printed.

// Reads lines from the standard input of the runtime `$rt`, and answers each on its standard output.
#[macro_export]
macro_rules! converse {
    ($rt:expr) => {{
        let heap = $rt.alloc();
        let mut desk = $crate::desk::Desk::Waiting;
        let mut line = $crate::buffer::LineBuffer::new(heap)?;
        for byte in std::io::BufReader::new(heap, $rt.stdin())?.bytes() {
            let byte = byte?;
            let answered = line.is_over();
            let ended = byte == b'\n';
            if !ended {
                line.add(byte);
            }
            // A line that is too long is answered at once, and the rest of it is passed over.
            if !answered && (ended || line.is_over()) {
                let answer = desk.answer(heap, line.bytes())?;
                $rt.print(answer)?;
            }
            if desk.is_closed() {
                return Ok(());
            }
            if ended {
                line.clear();
            }
        }
        // A last line without its end, and an input with no line at all.
        if !line.is_over() && (line.bytes().len() > 0 || matches!(desk, $crate::desk::Desk::Waiting)) {
            $rt.print($crate::question_line(heap)?)?;
        }
        Ok(())
    }};
}
