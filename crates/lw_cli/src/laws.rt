ghost use Rattle.lw_cli.specs.Laws.{CertificateIsPrinted, PrintedIsAccepted};

use lw_cert::{one_answer, one_certificate};
use lw_formula::truth_depends_on_variables;
use lw_proof::first_break_is_exact;

/// Law: of what is printed of a certificate that `certificate` gives, `check` says that it is accepted, with status 0 and
/// nothing else, if it isn't longer than a file may be and reads as that certificate. When a certificate's text does,
/// `written_reads_back` of lw_cert says: a proof that is too deep has a text that is refused.
pub fn printed_is_accepted()
    ensures { PrintedIsAccepted }
{
    one_answer();
    one_certificate();
    truth_depends_on_variables();
    first_break_is_exact();
}

/// Law: a script of the one statement `print certificate(L, A);` that is carried out writes the line of such a
/// certificate of the formula that `A` comes to.
pub fn certificate_is_printed()
    ensures { CertificateIsPrinted }
{}
