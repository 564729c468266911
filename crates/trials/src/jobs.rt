// The call that takes a job.
use trials_calls::answered;
use trials_stream::print;

// The listing's answer, and the lines of what is printed for it: of a refusal the program's own line, since the call leaves the buffer as it was.
pub fn listed(job: &[u8]) {
    let mut text = [0u8; 2624];
    print::word(b"listing");
    let answer = listing::listing(job, &mut text);
    answered(answer.map(|_| []));
    let n = match answer {
        Ok(n) => n,
        Err(refusal) => listing_text::refused_text(&mut text, refusal.number(), refusal.place()),
    };
    if n <= 2624 {
        print::lines(&text[..n]);
    }
}
