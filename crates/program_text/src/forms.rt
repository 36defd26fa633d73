//! The mnemonics of the forms.

/// A line for each form of `Insn`, in the order of its declaration: what its operands are, and a mnemonic for each of its
/// operations, in the order of theirs. The operands are said by how many registers, numbers and labels there are, `*`
/// standing for any number of them, and by what is named: a string, a type, a field, a method, or nothing.
const FORMS: &str = "000- nop
200- move move-wide move-object
100- move-result move-result-wide move-result-object
100- move-exception
000- return-void
100- return return-wide return-object
110- const
110- const-wide
100s const-string
100t const-class
100- monitor-enter
100- monitor-exit
100t check-cast
200t instance-of
200- array-length
100t new-instance
200t new-array
*00t filled-new-array
1*0- fill-array-data
100- throw
001- goto
11*- packed-switch
1**- sparse-switch
300- cmpl-float cmpg-float cmpl-double cmpg-double cmp-long
201- if-eq if-ne if-lt if-ge if-gt if-le
101- if-eqz if-nez if-ltz if-gez if-gtz if-lez
300- aget aget-wide aget-object aget-boolean aget-byte aget-char aget-short
300- aput aput-wide aput-object aput-boolean aput-byte aput-char aput-short
200f iget iget-wide iget-object iget-boolean iget-byte iget-char iget-short
200f iput iput-wide iput-object iput-boolean iput-byte iput-char iput-short
100f sget sget-wide sget-object sget-boolean sget-byte sget-char sget-short
100f sput sput-wide sput-object sput-boolean sput-byte sput-char sput-short
*00m invoke-virtual invoke-super invoke-direct invoke-static invoke-interface
200- neg-int not-int neg-long not-long neg-float neg-double int-to-long int-to-float int-to-double long-to-int \
    long-to-float long-to-double float-to-int float-to-long float-to-double double-to-int double-to-long \
    double-to-float int-to-byte int-to-char int-to-short
300- add-int sub-int mul-int div-int rem-int and-int or-int xor-int shl-int shr-int ushr-int add-long sub-long \
    mul-long div-long rem-long and-long or-long xor-long shl-long shr-long ushr-long add-float sub-float mul-float \
    div-float rem-float add-double sub-double mul-double div-double rem-double
210- add-int/lit rsub-int/lit mul-int/lit div-int/lit rem-int/lit and-int/lit or-int/lit xor-int/lit shl-int/lit shr-int/lit ushr-int/lit";

/// Where a mnemonic stands in the table, and what its operands are.
#[derive(Drop)]
pub struct Found {
    pub form: usize,
    pub operation: usize,
    pub operands: &'static str,
}

/// Where a mnemonic stands in the table.
pub fn find(mnemonic: &str) -> Option<Found> {
    for (form, line) in FORMS.lines().enumerate() {
        let mut words = line.split_whitespace();
        let operands = words.next()?;
        if let Some(operation) = words.position(|word| word == mnemonic) {
            return Some(Found {
                form,
                operation,
                operands,
            });
        }
    }
    None
}

/// What the operands are and the mnemonic that stands there, none where there is none.
pub fn spelled(form: usize, operation: usize) -> Option<(&'static str, &'static str)> {
    let mut words = FORMS.lines().nth(form)?.split_whitespace();
    let operands = words.next()?;
    Some((operands, words.nth(operation)?))
}
