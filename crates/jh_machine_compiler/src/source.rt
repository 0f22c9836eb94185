use jh_semantics::typed_code::MethodCode;
use jh_symbols::member_numbers::Numbers;

/// What steps are made from, beside their code: the node of each formula by its number in the source, where there is one,
/// the number of each method by its class and its own name, and the code of each method at its number.
#[derive(Clone, Copy)]
pub struct Source<'a> {
    pub formulas: &'a [Option<usize>],
    pub numbers: &'a Numbers,
    pub methods: &'a [MethodCode],
}
