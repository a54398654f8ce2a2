// The 38 mnemonics. Stacks are shown with the top at the right; N is i or r, T and T2 the letters of the instruction.
#[derive(Clone, Copy, PartialEq, Eq, Debug, Drop)]
pub enum Mnemonic {
    Add, // (N, N) -> (N): the sum
    Sub, // (N, N) -> (N): the difference
    Mul, // (N, N) -> (N): the product
    Div, // (N, N) -> (N): the quotient; of integers, the fraction dropped toward zero
    Neg, // (N) -> (N): the negative
    And, // (b, b) -> (b): both
    Or, // (b, b) -> (b): either
    Not, // (b) -> (b): the other truth value
    Equ, // (T, T) -> (b): equal
    Neq, // (T, T) -> (b): not equal
    Les, // (T, T) -> (b): the lower cell is less
    Leq, // (T, T) -> (b): the lower cell is less or equal
    Grt, // (T, T) -> (b): the lower cell is greater
    Geq, // (T, T) -> (b): the lower cell is greater or equal
    Ldc, // () -> (T): the constant q
    Ldo, // () -> (T): data cell q of procedure 0
    Sro, // (T) -> (): into data cell q of procedure 0
    Lod, // () -> (T): cell q of the frame p static links up
    Str, // (T) -> (): into cell q of the frame p static links up
    Lda, // () -> (a): the address of cell q of the frame p static links up
    Ind, // (a) -> (T): what the address points to
    Sto, // (a, T) -> (): into the cell that the address points to
    Dpl, // (T) -> (T, T): the top once more
    Ixa, // (a, i) -> (a): a + i * q
    Inc, // (T) -> (T): q more
    Dec, // (T) -> (T): q less
    Chk, // (i) -> (i): stops unless p <= value <= q
    Ujp, // () -> (): on at q
    Fjp, // (b) -> (): on at q if false
    In, // () -> (T): the next value waiting
    Out, // (T) -> (): writes the value
    Conv, // (T) -> (T2): the value in the other kind
    Mst, // () -> (mark p): five marks, the static link p links up
    Cup, // (mark, p parameters) -> (result): calls the procedure that begins at q
    Ent, // (parameters) -> (): opens the frame: q cells, at most p above them
    Retf, // (..) -> (): returns the result
    Retp, // (..) -> (): returns with no result
    Hlt, // (..) -> (): ends the run
}
