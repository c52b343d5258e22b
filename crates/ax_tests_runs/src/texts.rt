//! Programs, read from their texts.

use ax_front::read_source;
use ax_prog::Program;
use std::alloc::Global;
use std::test::Fail;

/// It reads two numbers, and prints 1 where the first is below the second, and else 0.
pub const BELOW: &str =
    "int main() { int x; int y; scanf(\"%d\", &x); scanf(\"%d\", &y); if (x < y) printf(\"%d\", 1); else printf(\"%d\", 0); return 0; }";

/// The example `marks.c`: it should also count a mean of 50.
pub const MARKS: &str = "#include <stdio.h>

/* Marks of a small class. */
struct stats {
    int count;
    int total;
    int best;
};

int clamp(int v, int low, int high)
{
    if (v < low) {
        return low;
    }
    if (v > high) {
        return high;
    }
    return v;
}

void collect(struct stats *s, int marks[], int n)
{
    int i;
    for (i = 0; i < n; i++) {
        int m;
        m = clamp(marks[i], 0, 100);
        s->count++;
        s->total += m;
        if (m > s->best) {
            s->best = m;
        }
    }
}

int main(void)
{
    struct stats s;
    int marks[10], n, i, mean, mode;
    s.count = 0;
    s.total = 0;
    s.best = 0;
    scanf(\"%d\", &n);
    for (i = 0; i < n; i++) {
        scanf(\"%d\", &marks[i]);
    }
    collect(&s, marks, n);
    mean = 0;
    if (s.count > 0) {
        mean = s.total / s.count;
    }
    printf(\"%d\\n\", mean);
    printf(\"%d\\n\", s.best);
    scanf(\"%d\", &mode);
    if (mode == 1) {
        if (mean > 50) { // should also hold at 50
            printf(\"%d\\n\", 1);
        } else {
            printf(\"%d\\n\", 0);
        }
    }
    return 0;
}
";

/// The program of a source.
pub fn program_of(alloc: Global, source: &str) -> Result<Program, Fail> {
    let bytes = source.as_bytes();
    if bytes.len() > 100_000 {
        return Err(Fail::from("too long"));
    }
    let program = read_source(alloc, bytes).ok().ok_or("refused")?;
    Ok(program)
}
