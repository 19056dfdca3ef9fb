// Rows of the program.
use hound_commands::run;
use hound_row_helpers::feed::Feed;
use hound_row_helpers::row::Row;
use hound_row_helpers::sink::Sink;

/// `tool WORD.. : BYTES OPTION..`; the word `''` is an empty one.
pub fn tool(row: &mut Row, words: &[&str], input: &[&str]) {
    let [bytes, options @ ..] = input else {
        return row.reject();
    };
    let mut said = Vec::new(row.alloc);
    for word in words {
        row.push(&mut said, if *word == "''" { "" } else { *word });
    }
    // The option `room=N` is the output's, all others are the input's.
    let mut of_output = Vec::new(row.alloc);
    let mut of_input = Vec::new(row.alloc);
    row.push(&mut of_output, "fault=Other");
    for option in options {
        if option.starts_with("room=") {
            row.push(&mut of_output, *option);
        } else {
            row.push(&mut of_input, *option);
        }
    }
    let mut output = Sink::of(row, &of_output);
    let mut errors = Vec::new(row.alloc);
    let mut input = Feed::of(row, bytes, &of_input);
    let status = run(row.alloc, &said, &mut input, &mut output, &mut errors);
    row.line.shown(status);
    row.line.word(":");
    row.line.text(&output.taken);
    row.line.word(":");
    row.line.text(&errors);
}
