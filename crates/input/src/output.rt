// Standard output by way of a lent buffer. What cannot be written is told at the end, and stops nothing before it.
use printing::Pen;
use std::io;
use std::io::Write;

#[derive(Drop)]
pub struct Output<'r, 'b, R> {
    pub rt: &'r R,
    pub buffer: &'b mut [u8],
    pub pen: Pen,
}

impl<'r, 'b, R: Print> Output<'r, 'b, R> {
    // With a buffer that holds nothing yet.
    pub fn new(rt: &'r R, buffer: &'b mut [u8]) -> Output<'r, 'b, R> {
        Output {
            rt,
            buffer,
            pen: printing::fresh(),
        }
    }

    // Writes out what the buffer still holds, and says on standard error where something could not be written.
    pub fn finish(self)
    where
        R: Eprint,
    {
        let Output { rt, buffer, pen } = self;
        printing::finish(rt, buffer, pen);
    }
}

impl<R: Print> Write for Output<'_, '_, R> {
    fn write(&mut self, buf: &[u8]) -> io::Result<usize> {
        let pen = self.pen;
        self.pen = printing::bytes(self.rt, self.buffer, pen, buf);
        Ok(buf.len())
    }

    fn flush(&mut self) -> io::Result<()> {
        let pen = self.pen;
        self.pen = printing::flush(self.rt, self.buffer, pen);
        Ok(())
    }
}
