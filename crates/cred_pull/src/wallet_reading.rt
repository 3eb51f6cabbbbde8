//! Reading a wallet file.

ghost use Rattle.std.specs.Prelude.{◌≡◌, ◌∷◌, ◌++◌, List, Option, OnOk, Vec, map, true, [], IfOk};
ghost use Rattle.byte_fields.specs.Steps.{with_fault};
ghost use Rattle.prin_text.specs.FileLines.{unless};
ghost use Rattle.prin_text.specs.LineView.{IsReadFor, TakesLine};
ghost use Rattle.cred_pull.specs.WalletFile.{AreShort, WalletRow, any_wallet_step, row_added};
ghost use Rattle.cred_pull.specs.WalletFile.{row_cause, wallet_in, wallet_row, wallet_step};
ghost use Rattle.cred_pull.specs.WalletView.{AreRows, IsWalletFault, StandSoFar, file_fault};
ghost use Rattle.cred_pull.specs.WalletView.{row_of, rows_of, wallet_cause};

use crate::limits::{MAX_WALLET_CERT, MAX_WALLET_LINES};
use crate::wallet::{Wallet, WalletLine};
use crate::wallet_fault::{WalletCause, WalletFault};
use prin_text::{
    FileCause, FileFault, LineFault, MAX_FILE, is_first_line, is_plain, is_skipped, is_word,
    line_at, numbered_digits, word_off,
};
use std::alloc::Global;

// One more certificate of a channel.
#[tactic(auto, unfolding(crate::specs::WalletFile::row_cause))]
fn add_cert(lines: &mut Vec<WalletLine>, channel: u32, cert: Vec<u8>) -> Result<(), LineFault>
    ensures takes { (above : List WalletRow) → AreRows lines.old.items above
        → TakesLine AreRows result lines.new.items
        (unless (row_cause above cert.items) (above ++ wallet_row channel cert.items ∷ [])) }
    ensures short { OnOk result
        (AreShort (map row_of lines.old.items) → AreShort (map row_of lines.new.items)) }
{
    if cert.len() > MAX_WALLET_CERT {
        return Err(LineFault::Refused(FileCause::Limit));
    }
    if lines.len() >= MAX_WALLET_LINES {
        return Err(LineFault::Refused(FileCause::Limit));
    }
    lines.push(WalletLine { channel, cert })?;
    Ok(())
}

// The same, where the line says the channel and the certificate.
fn take_cert(alloc: Global, lines: &mut Vec<WalletLine>, rest: &[u8]) -> Result<(), LineFault>
    ensures takes { (above : List WalletRow) → AreRows lines.old.items above
        → TakesLine AreRows result lines.new.items (row_added above rest.now) }
    ensures short { OnOk result
        (AreShort (map row_of lines.old.items) → AreShort (map row_of lines.new.items)) }
{
    match numbered_digits(alloc, rest) {
        Ok((channel, cert)) => add_cert(lines, channel, cert),
        Err(fault) => Err(fault),
    }
}

// What a line says is added, or nothing.
#[tactic(auto, unfolding(crate::specs::WalletFile::wallet_step))]
fn take_line(alloc: Global, lines: &mut Vec<WalletLine>, line: &[u8]) -> Result<(), LineFault>
    ensures takes { (above : List WalletRow) → AreRows lines.old.items above
        → TakesLine AreRows result lines.new.items (wallet_step above line.now) }
    ensures short { OnOk result
        (AreShort (map row_of lines.old.items) → AreShort (map row_of lines.new.items)) }
{
    let (word, rest) = word_off(line);
    if !is_word(word, "cert") {
        return Err(LineFault::Refused(FileCause::UnknownWord));
    }
    if is_plain(line) {
        take_cert(alloc, lines, rest)
    } else {
        Err(LineFault::Refused(FileCause::Words))
    }
}

// The first line says what file it is, and each behind it adds to it.
fn take_any(
    alloc: Global,
    lines: &mut Vec<WalletLine>,
    begun: bool,
    line: &[u8],
) -> Result<(), LineFault>
    ensures takes { (so_far : Option (List WalletRow)) → StandSoFar begun lines.old.items so_far
        → TakesLine (StandSoFar true) result lines.new.items
        (any_wallet_step so_far line.now) }
    ensures short { OnOk result
        (AreShort (map row_of lines.old.items) → AreShort (map row_of lines.new.items)) }
{
    if begun {
        return take_line(alloc, lines, line);
    }
    if is_first_line("taos-wallet", line) {
        return Ok(());
    }
    Err(LineFault::Refused(FileCause::FirstLine))
}

// The certificates that the file says.
fn read_lines(alloc: Global, bytes: &[u8]) -> Result<Vec<WalletLine>, FileFault>
    ensures exact { IsReadFor (λ (v : Vec WalletLine Global) rows. AreRows v.items rows) result
        (wallet_in bytes.now) }
    ensures short { IfOk result (λ v. AreShort (map row_of v.items)) }
{
    let mut number = 0;
    if bytes.len() > MAX_FILE {
        return Err(LineFault::Refused(FileCause::Limit).at(number));
    }
    let mut lines = Vec::new(alloc);
    let mut begun = false;
    let mut at = 0;
    while at < bytes.len() {
        let (line, next) = line_at(bytes, at);
        number += 1;
        if !is_skipped(line) {
            if let Err(fault) = take_any(alloc, &mut lines, begun, line) {
                return Err(fault.at(number));
            }
            begun = true;
        }
        at = next;
    }
    if begun {
        Ok(lines)
    } else {
        Err(LineFault::Refused(FileCause::FirstLine).at(number + 1))
    }
}

// The cause of a wallet file; one that such a file does not have comes from none.
fn wallet_cause(cause: FileCause) -> WalletCause
    ensures { result ≡ wallet_cause cause }
{
    match cause {
        FileCause::FirstLine => WalletCause::FirstLine,
        FileCause::UnknownWord => WalletCause::UnknownWord,
        FileCause::Number => WalletCause::Number,
        FileCause::Hex => WalletCause::Hex,
        FileCause::Limit => WalletCause::Limit,
        _ => WalletCause::Words,
    }
}

// The fault of a wallet file.
fn wallet_fault(fault: FileFault) -> WalletFault
    requires { IsWalletFault fault }
    ensures { file_fault result ≡ fault }
{
    match fault {
        FileFault::Line { line, cause } => WalletFault::Line {
            line,
            cause: wallet_cause(cause),
        },
        FileFault::Byte { .. } | FileFault::NoMemory => WalletFault::NoMemory,
    }
}

/// The wallet of a file, or its first line that is refused.
pub fn read_wallet(alloc: Global, bytes: &[u8]) -> Result<Wallet, WalletFault>
    ensures exact { IsReadFor (λ (w : Wallet) rows. rows_of w ≡ rows)
        (with_fault file_fault result) (wallet_in bytes.now) }
    ensures short { IfOk result (λ w. AreShort (rows_of w)) }
{
    match read_lines(alloc, bytes) {
        Ok(lines) => Ok(Wallet { lines }),
        Err(fault) => Err(wallet_fault(fault)),
    }
}
