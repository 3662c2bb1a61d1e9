// Writing that goes on past a write that fails.
ghost use Rattle.std.specs.Prelude.{◌≡◌, ◌≤◌, Ok, IsOk, IfOk, length};

use std::fmt::Display;
use std::io;

// A printer of which no failure is told: what can be written is, and the rest is passed over.
#[derive(Clone, Copy)]
pub struct Steady<P>(pub P);

impl<P: Print> Print for Steady<P> {
    fn print<D: Display + Drop>(&self, value: D) -> io::Result<()>
        ensures { IsOk result }
    {
        let _ = self.0.print(value);
        Ok(())
    }

    fn println<D: Display + Drop>(&self, value: D) -> io::Result<()>
        ensures { IsOk result }
    {
        let _ = self.0.println(value);
        Ok(())
    }

    fn write_all(&self, bytes: &[u8]) -> io::Result<()>
        ensures { IsOk result }
    {
        let _ = self.0.write_all(bytes);
        Ok(())
    }

    // Of all bytes it answers that they are written.
    fn write_some(&self, bytes: &[u8]) -> io::Result<usize>
        ensures bound { IfOk result (λ n. n ≤ length bytes.now) }
        ensures all { result ≡ Ok (length bytes.now) }
    {
        let _ = self.0.write_all(bytes);
        Ok(bytes.len())
    }
}
