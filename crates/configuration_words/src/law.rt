//! What every text says of itself.
//! The function does nothing; its contract is the law.

ghost use Rattle.configuration_words.specs.OneReading.{ConfigurationIsDetermined, FaultIsDetermined, FaultExcludesConfiguration};

use protocol_lexer::one_reading as one_list_of_tokens;

/// A text means at most one configuration of a system or has at most one first fault, and never both. The function does nothing.
pub fn one_reading()
    ensures configuration { ConfigurationIsDetermined }
    ensures fault { FaultIsDetermined }
    ensures either { FaultExcludesConfiguration }
{
    one_list_of_tokens();
}
