ghost use Rattle.std.specs.Prelude.{◌≡◌, nat_lt};
ghost use Rattle.matcher_read.specs.Helps.Counts.{is_node as is_node_token, node_count};
ghost use Rattle.matcher_read.specs.Matcher.{most_nodes};
ghost use Rattle.matcher_read.specs.Helps.TokenLists.{token_of};

use crate::forms::Forms;
use crate::token::Token;

// The greatest number of nodes.
const MOST_NODES: u32 = 1024;

/// Whether the tokens of a matcher make more nodes than it may have.
pub(crate) fn has_too_many_nodes(mut tokens: Forms) -> bool
    ensures { result ≡ nat_lt most_nodes (node_count tokens.entry.tokens) }
{
    let mut nodes = 0;
    while let Some(next) = tokens.peek() {
        if is_node(next.token) {
            if nodes == MOST_NODES {
                return true;
            }
            nodes += 1;
        }
        tokens.advance();
    }
    false
}

// Whether a token is a node: each but a parenthesis or a comma is one.
fn is_node(token: Token) -> bool
    ensures { result ≡ is_node_token (token_of token.entry) }
{
    !matches!(token, Token::Opening | Token::Closing | Token::Comma)
}
